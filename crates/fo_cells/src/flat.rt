ghost use Rattle.std.specs.Prelude.{◌≡◌, ◌↔◌, ◌<◌, ◌-◌, ◌^◌, ◌&&◌, [], ◌∷◌, ◌++◌, Some, length, slice_get, map, sum, IsTrue, IfOk, OnOk, OnErr, MatchBool, MatchOption};
ghost use Rattle.std.specs.List.{list_any};
ghost use Rattle.fo_terms.specs.declared.term.FoTerm.{FoTerm};
ghost use Rattle.fo_terms.specs.declared.literal.Literal.{Literal};
ghost use Rattle.fo_terms.specs.declared.atom.Atom.TheVariants.{Holds, Eq};
ghost use Rattle.fo_terms.specs.Weight.{literal_size, clause_size};
ghost use Rattle.fo_terms.specs.Same.{is_literal};
ghost use Rattle.fo_terms.specs.Normal.{is_identity, is_tautology, complement, numbered};
ghost use Rattle.fo_terms.specs.inner.Gathered.{kept};
ghost use Rattle.fo_cells.specs.Cells.{cells_of, is_equation, atom_cells, IsTerm};
ghost use Rattle.fo_cells.specs.inner.Seen.{IsMadeOf};

use crate::cell::{is_doubled, is_refuted, is_row, part};
use crate::place::Place;
use crate::renumbering::{gather, renumber};
use crate::trees::is_equality;
use crate::writing::put_atom;
use crate::{Cell, Cells};
use fo_terms::{Clause, Literal};
use std::alloc::Global;
use std::marker::Model;
use text_kit::NoMemory;

/// The literals of a clause as cells in a row, which contracts see as the list of the literals. It keeps its room when it is cleared.
#[derive(Debug, Drop)]
pub struct FlatClause {
    cells: Cells,
    places: Vec<Place>,
    /// room for the variables that are being numbered
    noted: Vec<u64>,
}

impl Model for FlatClause {
    ghost use Rattle.std.specs.Prelude.{List};
    ghost use Rattle.std.specs.Coded.{coded_list};
    ghost use Rattle.fo_terms.specs.contracts.literal.Literal as literal;
    ghost use Rattle.fo_terms.specs.declared.literal.Literal.{Literal};

    ghost Value = { List Literal };

    ghost coded = { coded_list literal.the_row.coded };

    ghost use Rattle.fo_cells.specs.inner.Seen.{literals_of, AreWhole};

    ghost view = { λ it. literals_of it.cells it.places.items };

    ghost invariant = { λ it. AreWhole it.cells it.places.items };
}

impl FlatClause {
    /// No literals. It takes no memory.
    pub fn begin(alloc: Global) -> FlatClause
        ensures { result ≡ [] }
    {
        FlatClause {
            cells: Cells::begin(alloc),
            places: Vec::new(alloc),
            noted: Vec::new(alloc),
        }
    }

    /// Takes out all literals, and keeps their room.
    pub fn clear(&mut self)
        ensures { self.new ≡ [] }
    {
        self.cells.clear();
        self.places.clear();
    }

    /// The number of literals.
    pub fn len(&self) -> usize
        ensures { result ≡ length self.now }
    {
        self.places.len()
    }

    /// The weights of the literals together. It takes constant time.
    pub fn weight(&self) -> u64
        ensures { result ≡ sum (map literal_size self.now) }
    {
        self.cells.len() as u64
    }

    /// Whether the literal at this place is an atom itself, and not its negation.
    pub fn is_positive(&self, at: usize) -> bool
        requires { at < length self.now }
        ensures { (l : Literal) → slice_get self.now at ≡ Some l → result ≡ l.positive }
    {
        self.places[at].positive
    }

    /// Whether the literal at this place is an equation or its negation.
    pub fn is_equation(&self, at: usize) -> bool
        requires { at < length self.now }
        ensures { (l : Literal) → slice_get self.now at ≡ Some l → result ≡ is_equation l.atom }
    {
        self.places[at].equation
    }

    /// The cells of the literal at this place; of an equation those of the left side and then those of the right side.
    pub fn atom(&self, at: usize) -> &[Cell]
        requires { at < length self.now }
        ensures { (l : Literal) → slice_get self.now at ≡ Some l → result.now ≡ atom_cells l.atom }
    {
        let place = self.places[at];
        part(self.cells.as_slice(), place.start, place.end)
    }

    /// Appends the literal where it isn't there yet. For want of memory the literals stay as they were.
    pub fn add_holds(&mut self, positive: bool, term: &[Cell]) -> Result<(), NoMemory>
        requires { IsTerm term.now }
        ensures ok { (t : FoTerm) → cells_of t ≡ term.now → OnOk result (self.new ≡ kept self.old (record { positive = positive; atom = Holds t })) }
        ensures err { OnErr result (self.new ≡ self.old) }
    {
        if self.holds(positive, false, term, &[]) {
            return Ok(());
        }
        self.put(positive, false, term, &[])
    }

    /// Appends the literal where it isn't `~(t = t)` and isn't there yet. For want of memory the literals stay as they were.
    pub fn add_equation(
        &mut self,
        positive: bool,
        left: &[Cell],
        right: &[Cell],
    ) -> Result<(), NoMemory>
        requires left { IsTerm left.now }
        requires right { IsTerm right.now }
        ensures ok { (s t : FoTerm) → cells_of s ≡ left.now → cells_of t ≡ right.now → OnOk result (self.new ≡ kept self.old (record { positive = positive; atom = Eq s t })) }
        ensures err { OnErr result (self.new ≡ self.old) }
    {
        if is_refuted(positive, left, right) {
            return Ok(());
        }
        if self.holds(positive, true, left, right) {
            return Ok(());
        }
        self.put(positive, true, left, right)
    }

    fn holds(&self, positive: bool, equation: bool, left: &[Cell], right: &[Cell]) -> bool
        ensures { (l : Literal) → IsMadeOf l positive equation (left.now ++ right.now) → result ≡ list_any (λ m. is_literal m l) self.now }
    {
        for i in 0..self.len() {
            if self.is_at(i, positive, equation, left, right) {
                return true;
            }
        }
        false
    }

    fn is_at(
        &self,
        at: usize,
        positive: bool,
        equation: bool,
        left: &[Cell],
        right: &[Cell],
    ) -> bool
        requires { at < length self.now }
        ensures { (l m : Literal) → IsMadeOf l positive equation (left.now ++ right.now) → slice_get self.now at ≡ Some m → result ≡ is_literal m l }
    {
        if self.is_positive(at) != positive {
            return false;
        }
        if self.is_equation(at) != equation {
            return false;
        }
        is_row(self.atom(at), left, right)
    }

    fn put(
        &mut self,
        positive: bool,
        equation: bool,
        left: &[Cell],
        right: &[Cell],
    ) -> Result<(), NoMemory>
        requires { (l : Literal) × IsMadeOf l positive equation (left.now ++ right.now) }
        ensures ok { (l : Literal) → IsMadeOf l positive equation (left.now ++ right.now) → OnOk result (self.new ≡ self.old ++ l ∷ []) }
        ensures err { OnErr result (self.new ≡ self.old) }
    {
        let start = self.cells.len();
        self.cells.append_both(left, right)?;
        let place = Place {
            positive,
            equation,
            start,
            end: self.cells.len(),
        };
        match self.places.push(place) {
            Ok(()) => Ok(()),
            Err(_) => {
                self.cells.cut(start);
                Err(NoMemory)
            }
        }
    }

    /// Appends the literal, also where it is there already; one of which a term has more than 65,535 symbols and variables is given up. Then, as
    /// for want of memory, the literals stay as they were.
    pub fn push(&mut self, l: &Literal) -> Result<bool, NoMemory>
        ensures ok { IfOk result (λ made. MatchBool made (self.new ≡ self.old ++ l.now ∷ []) ((2 ^ 16 - 1 < literal_size l.now) × (self.new ≡ self.old))) }
        ensures err { OnErr result (self.new ≡ self.old) }
    {
        let start = self.cells.len();
        if !put_atom(&l.atom, &mut self.cells)? {
            return Ok(false);
        }
        let place = Place {
            positive: l.positive,
            equation: is_equality(&l.atom),
            start,
            end: self.cells.len(),
        };
        match self.places.push(place) {
            Ok(()) => Ok(true),
            Err(_) => {
                self.cells.cut(start);
                Err(NoMemory)
            }
        }
    }

    /// The literals of the clause, or `None` where a term of it has more than 65,535 symbols and variables.
    pub fn of(alloc: Global, c: &Clause) -> Result<Option<FlatClause>, NoMemory>
        ensures { IfOk result (λ made. MatchOption made (2 ^ 16 - 1 < clause_size c.now) (λ flat. flat ≡ c.now.literals)) }
    {
        let mut flat = FlatClause::begin(alloc);
        for l in c.literals.as_slice() {
            if !flat.push(l)? {
                return Ok(None);
            }
        }
        Ok(Some(flat))
    }

    /// Numbers the variables from 0 in the order of their first occurrence. Variables are sought by a walk over those that were found.
    pub fn number(&mut self) -> Result<(), NoMemory>
        ensures ok { OnOk result (self.new ≡ numbered self.old) }
        ensures err { OnErr result (self.new ≡ self.old) }
    {
        gather(self.cells.as_slice(), &mut self.noted)?;
        renumber(&mut self.cells, self.noted.as_slice());
        Ok(())
    }

    /// Whether it holds an equation `t = t`, or a literal and its negation. It takes no memory.
    pub fn is_tautology(&self) -> bool
        ensures { result ≡ is_tautology self.now }
    {
        for i in 0..self.len() {
            if self.holds_always(i) {
                return true;
            }
            if self.is_opposed(i) {
                return true;
            }
        }
        false
    }

    fn is_identity(&self, at: usize) -> bool
        requires { at < length self.now }
        ensures { (l : Literal) → slice_get self.now at ≡ Some l → result ≡ is_identity l.atom }
    {
        if !self.is_equation(at) {
            return false;
        }
        is_doubled(self.atom(at))
    }

    fn holds_always(&self, at: usize) -> bool
        requires { at < length self.now }
        ensures { (l : Literal) → slice_get self.now at ≡ Some l → result ≡ (l.positive && is_identity l.atom) }
    {
        if !self.is_positive(at) {
            return false;
        }
        self.is_identity(at)
    }

    fn is_opposed(&self, at: usize) -> bool
        requires { at < length self.now }
        ensures { (l : Literal) → slice_get self.now at ≡ Some l → result ≡ list_any (is_literal (complement l)) self.now }
    {
        let positive = !self.is_positive(at);
        let equation = self.is_equation(at);
        let cells = self.atom(at);
        self.holds(positive, equation, cells, &[])
    }

    /// A second clause of the same literals, in no more room than they need.
    pub fn copy(&self, alloc: Global) -> Result<FlatClause, NoMemory>
        ensures { IfOk result (λ c. c ≡ self.now) }
    {
        let cells = self.cells.copy(alloc)?;
        match Vec::from_slice(alloc, self.places.as_slice()) {
            Ok(places) => Ok(FlatClause {
                cells,
                places,
                noted: Vec::new(alloc),
            }),
            Err(_) => Err(NoMemory),
        }
    }
}
