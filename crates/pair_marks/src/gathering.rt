ghost use Rattle.std.specs.Prelude.{◌≡◌, ℕ, true, Some, slice_get};
ghost use Rattle.fo_terms.specs.declared.term.FoTerm.{FoTerm};
ghost use Rattle.fo_terms.specs.declared.literal.Literal.{Literal};
ghost use Rattle.pair_marks.specs.Tops.{term_top, is_position};
ghost use Rattle.pair_marks.specs.Sets.{offer, Within};
ghost use Rattle.pair_marks.specs.Marking.{HasParts, HasAtomParts, HasNegative};

use crate::marks::{Marks, no_marks, offer_of, union};
use crate::tops::{Top, is_place, top_of};
use fo_terms::{Atom, FoTerm, Literal};

fn with_place(plain: bool, start: Marks, top: Top) -> Marks
    ensures kept { Within start result }
    ensures place { is_position plain top ≡ true → Within (offer top) result }
{
    if is_place(plain, top) {
        union(start, offer_of(top))
    } else {
        start
    }
}

/// The marks together with what the term's positions offer.
#[cycle(gathering)]
fn with_parts(plain: bool, start: Marks, t: &FoTerm) -> Marks
    ensures kept { Within start result }
    ensures parts { HasParts plain result t.now }
{
    let here = with_place(plain, start, top_of(t));
    match t {
        FoTerm::Var(_) => here,
        FoTerm::Fun(_, args) => with_all_parts(plain, here, args.as_slice()),
    }
}

#[cycle(gathering)]
fn with_all_parts(plain: bool, start: Marks, terms: &[FoTerm]) -> Marks
    ensures kept { Within start result }
    ensures parts { (k : ℕ) (t : FoTerm) → slice_get terms.now k ≡ Some t → HasParts plain result t }
{
    let mut all = start;
    for t in terms {
        all = with_parts(plain, all, t);
    }
    all
}

fn with_atom_parts(plain: bool, start: Marks, a: &Atom) -> Marks
    ensures kept { Within start result }
    ensures parts { HasAtomParts plain result a.now }
{
    match a {
        Atom::Holds(t) => with_parts(plain, start, t),
        Atom::Eq(s, t) => with_parts(plain, with_parts(plain, start, s), t),
    }
}

/// What the positions of all these literals offer.
pub(crate) fn parts_of(plain: bool, literals: &[Literal]) -> Marks
    ensures { (j : ℕ) (l : Literal) → slice_get literals.now j ≡ Some l → HasAtomParts plain result l.atom }
{
    let mut all = no_marks();
    for l in literals {
        all = with_atom_parts(plain, all, &l.atom);
    }
    all
}

fn with_negative(start: Marks, l: &Literal) -> Marks
    ensures kept { Within start result }
    ensures negative { HasNegative result l.now }
{
    if l.positive {
        return start;
    }
    match &l.atom {
        Atom::Holds(t) => union(start, offer_of(top_of(t))),
        Atom::Eq(_, _) => start,
    }
}

/// What the terms of the negative literals that are no equations offer.
pub(crate) fn negatives_of(literals: &[Literal]) -> Marks
    ensures { (j : ℕ) (l : Literal) → slice_get literals.now j ≡ Some l → HasNegative result l }
{
    let mut all = no_marks();
    for l in literals {
        all = with_negative(all, l);
    }
    all
}
