ghost use Rattle.std.specs.Prelude.{◌≡◌, ℕ, Some, slice_get, IsTrue};
ghost use Rattle.fo_terms.specs.declared.term.FoTerm.{FoTerm};
ghost use Rattle.fo_terms.specs.Normal.{variables_of};
ghost use Rattle.fo_infer.specs.inner.Slight.{AreBelow, Slight, SlightAtom, StaysLess};

use fo_order::is_less;
use fo_terms::{Atom, FoTerm};

/// The most that a slight term weighs.
const MOST: u64 = 64;

/// The least variable that doesn't stand in slight terms.
const FREE: u64 = 8;

#[cycle(slight)]
fn variables_are_low(t: &FoTerm) -> bool
    ensures { IsTrue result → AreBelow 8 (variables_of t.now) }
{
    match t {
        FoTerm::Var(x) => *x < FREE,
        FoTerm::Fun(_, args) => all_variables_are_low(args.as_slice()),
    }
}

#[cycle(slight)]
fn all_variables_are_low(terms: &[FoTerm]) -> bool
    ensures { IsTrue result → (k : ℕ) (t : FoTerm) → slice_get terms.now k ≡ Some t → AreBelow 8 (variables_of t) }
{
    for t in terms {
        if !variables_are_low(t) {
            return false;
        }
    }
    true
}

/// Whether a term weighs at most 64 and has no variable from 8 on.
fn is_slight(t: &FoTerm) -> bool
    ensures { IsTrue result → Slight t.now }
{
    t.weight() <= MOST && variables_are_low(t)
}

/// Whether the term of an atom, or both sides of an equation, are slight.
pub fn is_slight_atom(a: &Atom) -> bool
    ensures { IsTrue result → SlightAtom a.now }
{
    match a {
        Atom::Holds(t) => is_slight(t),
        Atom::Eq(s, t) => is_slight(s) && is_slight(t),
    }
}

/// Whether the one term is less than the other, and stays so whenever it is made the same as a slight term.
///
/// A substitution keeps the order of two terms, unless weights pass 2^64. A most general unifier of slight terms makes
/// none of them that heavy.
pub fn stays_less(s: &FoTerm, t: &FoTerm) -> bool
    ensures { IsTrue result → StaysLess s.now t.now }
{
    if !is_less(s, t) {
        return false;
    }
    is_slight(s) && is_slight(t)
}
