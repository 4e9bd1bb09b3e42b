ghost use Rattle.std.specs.Prelude.{◌≡◌, ◌↔◌, ℕ, ◌≤◌, ◌-◌, [], ◌∷◌, ◌++◌, List, length, take, drop, IsTrue, MatchOption};
ghost use Rattle.fo_terms.specs.declared.term.FoTerm.{FoTerm};
ghost use Rattle.fo_terms.specs.declared.atom.Atom.TheVariants.{Eq};
ghost use Rattle.fo_cells.specs.declared.cell.Cell.{Cell};
ghost use Rattle.fo_cells.specs.declared.cell.Cell.TheVariants.{Fun};
ghost use Rattle.fo_terms.specs.Same.{is_term};
ghost use Rattle.fo_terms.specs.Normal.{is_refuted};
ghost use Rattle.fo_cells.specs.inner.Seen.{first_len};
ghost use Rattle.fo_cells.specs.Cells.{cells_of};

/// A variable or a symbol of a term that stands in reading order.
#[derive(Clone, Copy, Debug, Drop)]
pub enum Cell {
    /// a variable
    Var(u64),
    /// a symbol: how many arguments it has, and how many cells it and they take
    Fun { arity: u16, size: u16, symbol: u64 },
}

fn same_cell(a: &Cell, b: &Cell) -> bool
    ensures { IsTrue result ↔ (a.now ≡ b.now) }
{
    match (a, b) {
        (Cell::Var(x), Cell::Var(y)) => *x == *y,
        (
            Cell::Fun {
                arity: m,
                size: i,
                symbol: f,
            },
            Cell::Fun {
                arity: n,
                size: j,
                symbol: g,
            },
        ) => *f == *g && *m == *n && *i == *j,
        _ => false,
    }
}

/// Whether two rows of cells are the same.
pub fn same_cells(left: &[Cell], right: &[Cell]) -> bool
    ensures { IsTrue result ↔ (left.now ≡ right.now) }
{
    if left.len() != right.len() {
        return false;
    }
    for i in 0..left.len() {
        if !same_cell(&left[i], &right[i]) {
            return false;
        }
    }
    true
}

/// Whether a row of cells is one and then another.
pub fn is_row(cells: &[Cell], first: &[Cell], second: &[Cell]) -> bool
    ensures { IsTrue result ↔ (cells.now ≡ first.now ++ second.now) }
{
    let n = first.len();
    if cells.len() < n {
        return false;
    }
    same_cells(&cells[..n], first) && same_cells(&cells[n..], second)
}

/// The cells from one place to another.
pub fn part(cells: &[Cell], start: usize, end: usize) -> &[Cell]
    requires ordered { start ≤ end }
    requires within { end ≤ length cells.now }
    ensures { result.now ≡ take (end - start) (drop start cells.now) }
{
    &cells[start..end]
}

/// How many cells the term at the front takes.
pub fn term_len(cells: &[Cell]) -> usize
    ensures { (t : FoTerm) (rest : List Cell) → cells_of t ++ rest ≡ cells.now → result ≡ length (cells_of t) }
{
    front_len(cells)
}

fn front_len(cells: &[Cell]) -> usize
    ensures { result ≡ first_len cells.now }
{
    match cells.first() {
        None => 0,
        Some(Cell::Var(_)) => 1,
        Some(Cell::Fun { size, .. }) => *size as usize,
    }
}

/// The cells of the first term, and those behind it.
pub fn split_term(cells: &[Cell]) -> (&[Cell], &[Cell])
    requires { (t : FoTerm) × (rest : List Cell) × (cells_of t ++ rest ≡ cells.now) }
    ensures { (t : FoTerm) (rest : List Cell) → cells_of t ++ rest ≡ cells.now → (result.0.now ≡ cells_of t) × (result.1.now ≡ rest) }
{
    cells.split_at(term_len(cells))
}

/// The first cell, and those behind it.
pub fn first_cell(cells: &[Cell]) -> Option<(Cell, &[Cell])>
    ensures { MatchOption result (cells.now ≡ []) (λ parts. parts.0 ∷ parts.1.now ≡ cells.now) }
{
    match cells {
        [] => None,
        [cell, rest @ ..] => Some((*cell, rest)),
    }
}

/// The cells behind the first one, where this is of that symbol with as many arguments.
pub fn after_symbol(cells: &[Cell], arity: u16, symbol: u64) -> Option<&[Cell]>
    ensures { MatchOption result ((size : ℕ) (rest : List Cell) → Fun arity size symbol ∷ rest ≡ cells.now → ⊥) (λ rest. (size : ℕ) × (Fun arity size symbol ∷ rest.now ≡ cells.now)) }
{
    match cells {
        [
            Cell::Fun {
                arity: n,
                symbol: f,
                ..
            },
            rest @ ..,
        ] if *n == arity && *f == symbol => Some(rest),
        _ => None,
    }
}

/// Whether the cells of two terms are twice those of one.
pub fn is_doubled(cells: &[Cell]) -> bool
    ensures { (s t : FoTerm) → cells_of s ++ cells_of t ≡ cells.now → result ≡ is_term s t }
{
    let middle = term_len(cells);
    if cells.len() < middle {
        return false;
    }
    same_cells(&cells[..middle], &cells[middle..])
}

/// Whether the literal of this sign and these sides is `~(t = t)`.
pub fn is_refuted(positive: bool, left: &[Cell], right: &[Cell]) -> bool
    ensures { (s t : FoTerm) → cells_of s ≡ left.now → cells_of t ≡ right.now → result ≡ is_refuted (record { positive = positive; atom = Eq s t }) }
{
    if positive {
        return false;
    }
    same_cells(left, right)
}
