ghost use Rattle.std.specs.Prelude.{◌≡◌, ℕ, List, ◌+◌, ◌<◌, ◌≤◌, ◌∷◌, Some, length, map, drop, slice_get};
ghost use Rattle.fo_terms.specs.declared.term.FoTerm.{FoTerm};
ghost use Rattle.fo_terms.specs.declared.literal.Literal.{Literal};
ghost use Rattle.fo_terms.specs.Substitution.{var};
ghost use Rattle.fo_cells.specs.Binds.{Agrees, binds_of};
ghost use Rattle.fo_cells.specs.Cells.{joined, cells_of};
ghost use Rattle.flat_subsume.specs.inner.Covering.{Tells, Covers, CoversBy, GoesOn};

use fo_cells::{Binds, Cell, FlatClause, after_symbol, bound, first_cell, same_cells, split_term};

/// Whether one substitution that agrees with the bindings sends each literal of `c` from place `k` on to a literal of `d`; or `None` where the
/// steps don't suffice.
#[cycle(covering)]
pub fn covers(
    c: &FlatClause,
    k: usize,
    d: &FlatClause,
    binds: &Binds,
    steps: &mut u32,
) -> Option<bool>
    requires place { k ≤ length c.now }
    requires agree { (v : ℕ → FoTerm) × Agrees v (binds_of binds.now) }
    ensures fewer { steps.new ≤ steps.old }
    ensures told { Tells result (Covers (binds_of binds.now) d.now (drop k c.now)) }
{
    if k >= c.len() {
        return Some(true);
    }
    for j in 0..d.len() {
        if covers_by(&*c, k, &*d, j, &*binds, &mut *steps)? {
            return Some(true);
        }
    }
    Some(false)
}

/// The same, with the first of these literals sent to the one at place `j`.
#[cycle(covering)]
fn covers_by(
    c: &FlatClause,
    k: usize,
    d: &FlatClause,
    j: usize,
    binds: &Binds,
    steps: &mut u32,
) -> Option<bool>
    requires place { k < length c.now }
    requires within { j < length d.now }
    requires agree { (v : ℕ → FoTerm) × Agrees v (binds_of binds.now) }
    ensures fewer { steps.new ≤ steps.old }
    ensures told { (l m : Literal) → slice_get c.now k ≡ Some l → slice_get d.now j ≡ Some m → Tells result (CoversBy (binds_of binds.now) d.now (drop (k + 1) c.now) l m) }
{
    if c.is_positive(k) != d.is_positive(j) {
        return Some(false);
    }
    if c.is_equation(k) != d.is_equation(j) {
        return Some(false);
    }
    goes_on(&*c, k, &*d, c.atom(k), d.atom(j), &*binds, &mut *steps)
}

/// Whether one substitution makes the terms on the left those on the right, and sends each literal behind place `k` to one of `d`.
#[cycle(covering)]
fn goes_on(
    c: &FlatClause,
    k: usize,
    d: &FlatClause,
    left: &[Cell],
    right: &[Cell],
    binds: &Binds,
    steps: &mut u32,
) -> Option<bool>
    requires place { k < length c.now }
    requires row { (ts : List FoTerm) × (joined (map cells_of ts) ≡ right.now) }
    requires agree { (v : ℕ → FoTerm) × Agrees v (binds_of binds.now) }
    ensures fewer { steps.new ≤ steps.old }
    ensures told { (ps ts : List FoTerm) → joined (map cells_of ps) ≡ left.now → joined (map cells_of ts) ≡ right.now → Tells result (GoesOn (binds_of binds.now) d.now (drop (k + 1) c.now) ps ts) }
{
    if *steps == 0 {
        return None;
    }
    *steps -= 1;
    match first_cell(left) {
        None => {
            if !right.is_empty() {
                return Some(false);
            }
            let _count = c.len();
            covers(&*c, k + 1, &*d, &*binds, &mut *steps)
        }
        Some((Cell::Fun { arity, symbol, .. }, behind)) => {
            match after_symbol(right, arity, symbol) {
                Some(rest) => goes_on(&*c, k, &*d, behind, rest, &*binds, &mut *steps),
                None => Some(false),
            }
        }
        Some((Cell::Var(x), behind)) => {
            binds_on(&*c, k, &*d, x, behind, right, &*binds, &mut *steps)
        }
    }
}

/// The same, where the variable stands before the terms on the left.
#[cycle(covering)]
fn binds_on(
    c: &FlatClause,
    k: usize,
    d: &FlatClause,
    x: u64,
    left: &[Cell],
    right: &[Cell],
    binds: &Binds,
    steps: &mut u32,
) -> Option<bool>
    requires place { k < length c.now }
    requires row { (ts : List FoTerm) × (joined (map cells_of ts) ≡ right.now) }
    requires agree { (v : ℕ → FoTerm) × Agrees v (binds_of binds.now) }
    ensures fewer { steps.new ≤ steps.old }
    ensures told { (ps ts : List FoTerm) → joined (map cells_of ps) ≡ left.now → joined (map cells_of ts) ≡ right.now → Tells result (GoesOn (binds_of binds.now) d.now (drop (k + 1) c.now) (var x ∷ ps) ts) }
{
    if right.is_empty() {
        return Some(false);
    }
    let (first, rest) = split_term(right);
    match bound(&*binds, x) {
        Some(held) => {
            if !same_cells(held, first) {
                return Some(false);
            }
            goes_on(&*c, k, &*d, left, rest, &*binds, &mut *steps)
        }
        None => goes_on(
            &*c,
            k,
            &*d,
            left,
            rest,
            &Binds::More(x, first, &*binds),
            &mut *steps,
        ),
    }
}
