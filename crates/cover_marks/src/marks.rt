ghost use Rattle.std.specs.Prelude.{◌≡◌, ◌++◌, ◌<◌, List, Some, map, length, slice_get};
ghost use Rattle.fo_terms.specs.declared.term.FoTerm.{FoTerm};
ghost use Rattle.fo_terms.specs.declared.literal.Literal.{Literal};
ghost use Rattle.fo_cells.specs.Cells.{cells_of, joined, IsTerm};
ghost use Rattle.cover_marks.specs.Marks.{under, next, mark, arguments_marks, term_marks, literal_marks};

use fo_cells::{Cell, FlatClause, first_cell, split_term};
use fo_terms::{Atom, FoTerm, Literal};

/// An odd number near 2^64 divided by the golden ratio: products with it spread near numbers.
const SPREAD: u64 = 11_400_714_819_323_198_485;

/// Where a symbol stands that is found at this place.
fn under(place: u64, f: u64) -> u64
    ensures { result ≡ under place f }
{
    place.wrapping_mul(SPREAD).wrapping_add(f)
}

/// The place of the next argument.
fn next(place: u64) -> u64
    ensures { result ≡ next place }
{
    place.wrapping_add(SPREAD)
}

/// The mark of a symbol that stands here, by the upper bits of a product.
fn mark(here: u64) -> u64
    ensures { result ≡ mark here }
{
    let upper = here.wrapping_mul(SPREAD) >> 32;
    let bit = upper % 60 + 4;
    1 << bit
}

#[cycle(marking)]
fn of_term(place: u64, t: &FoTerm) -> u64
    ensures { result ≡ term_marks t.now place }
{
    match t {
        FoTerm::Var(_) => 0,
        FoTerm::Fun(f, args) => {
            let here = under(place, *f);
            of_arguments(here, mark(here), args.as_slice())
        }
    }
}

#[cycle(marking)]
fn of_arguments(first: u64, start: u64, terms: &[FoTerm]) -> u64
    ensures { result ≡ arguments_marks first start (map term_marks terms.now) }
{
    let mut place = first;
    let mut marks = start;
    for t in terms {
        marks |= of_term(place, t);
        place = next(place);
    }
    marks
}

/// The marks of a literal: one of four for its sign and kind, and one of sixty for each symbol at its place. It takes no memory.
pub(crate) fn of_literal(l: &Literal) -> u64
    ensures { result ≡ literal_marks l.now }
{
    match &l.atom {
        Atom::Holds(t) => (if l.positive { 1 } else { 2 }) | of_term(1, t),
        Atom::Eq(s, t) => (if l.positive { 4 } else { 8 }) | of_term(2, s) | of_term(3, t),
    }
}

/// The marks of the term that the cells are of.
#[cycle(flat_marking)]
fn of_cells(place: u64, cells: &[Cell]) -> u64
    requires { IsTerm cells.now }
    ensures { (t : FoTerm) → cells_of t ≡ cells.now → result ≡ term_marks t place }
{
    match first_cell(cells) {
        Some((Cell::Fun { symbol, .. }, behind)) => {
            let here = under(place, symbol);
            of_row(here, mark(here), behind)
        }
        Some((Cell::Var(_), _)) => 0,
        None => 0,
    }
}

/// Those of the terms in a row, the first of them at this place, with those so far.
#[cycle(flat_marking)]
fn of_row(place: u64, marks: u64, cells: &[Cell]) -> u64
    requires { (ts : List FoTerm) × (joined (map cells_of ts) ≡ cells.now) }
    ensures { (ts : List FoTerm) → joined (map cells_of ts) ≡ cells.now → result ≡ arguments_marks place marks (map term_marks ts) }
{
    if cells.is_empty() {
        return marks;
    }
    let (first, rest) = split_term(cells);
    of_row(next(place), marks | of_cells(place, first), rest)
}

fn of_sides(positive: bool, cells: &[Cell]) -> u64
    requires { (s : FoTerm) × (t : FoTerm) × (cells_of s ++ cells_of t ≡ cells.now) }
    ensures { (s t : FoTerm) → cells_of s ++ cells_of t ≡ cells.now → result ≡ literal_marks (record { positive = positive; atom = Atom.Eq s t }) }
{
    let (left, right) = split_term(cells);
    (if positive { 4 } else { 8 }) | of_cells(2, left) | of_cells(3, right)
}

fn of_side(positive: bool, cells: &[Cell]) -> u64
    requires { IsTerm cells.now }
    ensures { (t : FoTerm) → cells_of t ≡ cells.now → result ≡ literal_marks (record { positive = positive; atom = Atom.Holds t }) }
{
    (if positive { 1 } else { 2 }) | of_cells(1, cells)
}

/// The marks of the literal at this place. It takes no memory.
pub(crate) fn of_flat_literal(c: &FlatClause, at: usize) -> u64
    requires { at < length c.now }
    ensures { (l : Literal) → slice_get c.now at ≡ Some l → result ≡ literal_marks l }
{
    let positive = c.is_positive(at);
    let cells = c.atom(at);
    if c.is_equation(at) {
        of_sides(positive, cells)
    } else {
        of_side(positive, cells)
    }
}
