ghost use Rattle.std.specs.Prelude.{◌≡◌, fold, map};
ghost use Rattle.fo_cells.specs.Cells.{cells_of, joined, atom_cells};
ghost use Rattle.fo_cells.specs.Print.{mixed, cell_mixed, head_mixed, literal_mixed, cells_print};

use crate::{Cell, FlatClause};
use fo_terms::{Atom, Clause, FoTerm, Literal};

fn mix(a: u64, b: u64) -> u64
    ensures { result ≡ mixed a b }
{
    a.wrapping_mul(11_400_714_819_323_198_485).wrapping_add(b)
}

fn mix_cell(print: u64, cell: &Cell) -> u64
    ensures { result ≡ cell_mixed print cell.now }
{
    match cell {
        Cell::Var(x) => mix(mix(print, 1), *x),
        Cell::Fun { symbol, .. } => mix(mix(print, 2), *symbol),
    }
}

fn mix_cells(print: u64, cells: &[Cell]) -> u64
    ensures { result ≡ fold cell_mixed print cells.now }
{
    let mut print = print;
    for cell in cells {
        print = mix_cell(print, cell);
    }
    print
}

fn mix_head(print: u64, positive: bool, equation: bool) -> u64
    ensures { result ≡ head_mixed print positive equation }
{
    mix(
        mix(print, if positive { 3 } else { 4 }),
        if equation { 5 } else { 6 },
    )
}

impl FlatClause {
    /// A number that equal clauses share, and different ones hardly. It takes no memory.
    pub fn print(&self) -> u64
        ensures { result ≡ cells_print self.now }
    {
        let mut print = 7;
        for i in 0..self.len() {
            let head = mix_head(print, self.is_positive(i), self.is_equation(i));
            print = mix_cells(head, self.atom(i));
        }
        print
    }
}

#[cycle(printing)]
fn mix_term(print: u64, t: &FoTerm) -> u64
    ensures { result ≡ fold cell_mixed print (cells_of t.now) }
{
    match t {
        FoTerm::Var(x) => mix(mix(print, 1), *x),
        FoTerm::Fun(f, args) => mix_terms(mix(mix(print, 2), *f), args.as_slice()),
    }
}

#[cycle(printing)]
fn mix_terms(print: u64, terms: &[FoTerm]) -> u64
    ensures { result ≡ fold cell_mixed print (joined (map cells_of terms.now)) }
{
    let mut print = print;
    for t in terms {
        print = mix_term(print, t);
    }
    print
}

fn mix_literal(print: u64, l: &Literal) -> u64
    ensures { result ≡ literal_mixed print l.now }
{
    match &l.atom {
        Atom::Holds(t) => mix_term(mix_head(print, l.positive, false), t),
        Atom::Eq(s, t) => mix_term(mix_term(mix_head(print, l.positive, true), s), t),
    }
}

/// The number that `print` gives of a clause of the same literals as cells. It takes no memory.
pub fn print_of(c: &Clause) -> u64
    ensures { result ≡ cells_print c.now.literals }
{
    let mut print = 7;
    for l in c.literals.as_slice() {
        print = mix_literal(print, l);
    }
    print
}
