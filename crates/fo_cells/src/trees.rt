ghost use Rattle.std.specs.Prelude.{◌≡◌, ◌↔◌, false, List, [], ◌∷◌, ◌++◌, ◌<◌, Some, length, slice_get, take, drop, map, reverse, IsTrue, IfOk, OnOk, MatchOption};
ghost use Rattle.fo_terms.specs.declared.term.FoTerm.{FoTerm};
ghost use Rattle.fo_terms.specs.declared.literal.Literal.{Literal};
ghost use Rattle.fo_cells.specs.declared.cell.Cell.{Cell};
ghost use Rattle.fo_cells.specs.Cells.{cells_of, joined, symbol_cells, atom_cells, is_equation};
ghost use Rattle.fo_cells.specs.inner.Seen.{terms_of, cell_terms, atom_from};

use crate::{Cell, FlatClause};
use fo_terms::{Atom, Clause, FoTerm, Literal};
use std::alloc::Global;
use text_kit::{NoMemory, Rows};

/// The cells behind those of the term, where the cells begin with them.
#[cycle(reading)]
fn behind<'a>(t: &FoTerm, cells: &'a [Cell]) -> Option<&'a [Cell]>
    ensures { MatchOption result ((rest : List Cell) → cells_of t.now ++ rest ≡ cells.now → ⊥) (λ rest. cells_of t.now ++ rest.now ≡ cells.now) }
{
    match t {
        FoTerm::Var(x) => behind_variable(*x, cells),
        FoTerm::Fun(f, args) => behind_symbol(*f, args.as_slice(), cells),
    }
}

fn behind_variable(x: u64, cells: &[Cell]) -> Option<&[Cell]>
    ensures { MatchOption result ((rest : List Cell) → Cell.Var x ∷ rest ≡ cells.now → ⊥) (λ rest. Cell.Var x ∷ rest.now ≡ cells.now) }
{
    match cells {
        [Cell::Var(y), rest @ ..] if *y == x => Some(rest),
        _ => None,
    }
}

#[cycle(reading)]
fn behind_symbol<'a>(symbol: u64, args: &[FoTerm], cells: &'a [Cell]) -> Option<&'a [Cell]>
    ensures { MatchOption result ((rest : List Cell) → symbol_cells symbol (map cells_of args.now) ++ rest ≡ cells.now → ⊥) (λ rest. symbol_cells symbol (map cells_of args.now) ++ rest.now ≡ cells.now) }
{
    let Some(
        Cell::Fun {
            arity,
            size,
            symbol: f,
        },
    ) = cells.first()
    else {
        return None;
    };
    if *f != symbol || *arity as usize != args.len() {
        return None;
    }
    let rest = behind_all(args, &cells[1..])?;
    if cells.len() - rest.len() == *size as usize {
        Some(rest)
    } else {
        None
    }
}

#[cycle(reading)]
fn behind_all<'a>(terms: &[FoTerm], cells: &'a [Cell]) -> Option<&'a [Cell]>
    ensures { MatchOption result ((rest : List Cell) → joined (map cells_of terms.now) ++ rest ≡ cells.now → ⊥) (λ rest. joined (map cells_of terms.now) ++ rest.now ≡ cells.now) }
{
    let mut rest = cells;
    for t in terms {
        rest = behind(t, rest)?;
    }
    Some(rest)
}

fn is_atom(a: &Atom, cells: &[Cell]) -> bool
    ensures { IsTrue result ↔ (atom_cells a.now ≡ cells.now) }
{
    match a {
        Atom::Holds(t) => is_all(behind(t, cells)),
        Atom::Eq(s, t) => match behind(s, cells) {
            Some(rest) => is_all(behind(t, rest)),
            None => false,
        },
    }
}

fn is_all(rest: Option<&[Cell]>) -> bool
    ensures { MatchOption rest.entry (result ≡ false) (λ cells. IsTrue result ↔ (cells.now ≡ [])) }
{
    match rest {
        Some(cells) => cells.is_empty(),
        None => false,
    }
}

pub(crate) fn is_equality(a: &Atom) -> bool
    ensures { result ≡ is_equation a.now }
{
    match a {
        Atom::Holds(_) => false,
        Atom::Eq(_, _) => true,
    }
}

impl FlatClause {
    /// Whether it has the literals of the clause, in their order. It takes no memory.
    pub fn is_clause(&self, c: &Clause) -> bool
        ensures { IsTrue result ↔ (c.now.literals ≡ self.now) }
    {
        let literals = c.literals.as_slice();
        if literals.len() != self.len() {
            return false;
        }
        for i in 0..literals.len() {
            if !self.is_literal(i, &literals[i]) {
                return false;
            }
        }
        true
    }

    fn is_literal(&self, at: usize, l: &Literal) -> bool
        requires { at < length self.now }
        ensures { (m : Literal) → slice_get self.now at ≡ Some m → IsTrue result ↔ (l.now ≡ m) }
    {
        if self.is_positive(at) != l.positive {
            return false;
        }
        if self.is_equation(at) != is_equality(&l.atom) {
            return false;
        }
        is_atom(&l.atom, self.atom(at))
    }

    /// The clause of the same literals as trees.
    pub fn to_clause(&self, alloc: Global) -> Result<Clause, NoMemory>
        ensures { IfOk result (λ c. c.literals ≡ self.now) }
    {
        let mut literals = Rows::begin(alloc);
        for i in 0..self.len() {
            literals.push(Literal {
                positive: self.is_positive(i),
                atom: self.to_atom(i, alloc)?,
            })?;
        }
        Ok(Clause { literals })
    }

    fn to_atom(&self, at: usize, alloc: Global) -> Result<Atom, NoMemory>
        requires { at < length self.now }
        ensures { IfOk result (λ a. (l : Literal) → slice_get self.now at ≡ Some l → a ≡ l.atom) }
    {
        let mut terms = read(alloc, self.atom(at))?;
        Ok(atom_of(self.is_equation(at), &mut terms))
    }
}

/// The atom of the terms that stand here, the first one last.
fn atom_of(equation: bool, terms: &mut Rows<FoTerm>) -> Atom
    ensures { result ≡ atom_from equation (reverse terms.old) }
{
    match terms.pop() {
        None => Atom::Holds(FoTerm::Var(0)),
        Some(s) => {
            if !equation {
                return Atom::Holds(s);
            }
            match terms.pop() {
                None => Atom::Holds(s),
                Some(t) => Atom::Eq(s, t),
            }
        }
    }
}

/// The terms of the cells, the first one last.
fn read(alloc: Global, cells: &[Cell]) -> Result<Rows<FoTerm>, NoMemory>
    ensures { IfOk result (λ terms. reverse terms ≡ terms_of cells.now) }
{
    let mut terms = Rows::begin(alloc);
    let mut left = cells.len();
    while left > 0 {
        left -= 1;
        read_cell(alloc, cells[left], &mut terms)?;
    }
    Ok(terms)
}

fn read_cell(alloc: Global, cell: Cell, terms: &mut Rows<FoTerm>) -> Result<(), NoMemory>
    ensures { OnOk result (reverse terms.new ≡ cell_terms cell (reverse terms.old)) }
{
    match cell {
        Cell::Var(x) => terms.push(FoTerm::Var(x)),
        Cell::Fun { arity, symbol, .. } => {
            let args = taken(alloc, arity as usize, &mut *terms)?;
            terms.push(FoTerm::Fun(symbol, args))
        }
    }
}

/// Takes that many terms from the end, or as many as there are; the last one comes first.
fn taken(alloc: Global, n: usize, terms: &mut Rows<FoTerm>) -> Result<Rows<FoTerm>, NoMemory>
    ensures { IfOk result (λ args. (args ≡ take n (reverse terms.old)) × (reverse terms.new ≡ drop n (reverse terms.old))) }
{
    let mut args = match Vec::with_capacity(alloc, n) {
        Ok(room) => Rows::from_vec(room),
        Err(_) => return Err(NoMemory),
    };
    while args.len() < n {
        match terms.pop() {
            Some(t) => args.push(t)?,
            None => return Ok(args),
        }
    }
    Ok(args)
}
