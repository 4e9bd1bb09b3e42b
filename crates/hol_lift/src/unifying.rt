ghost use Rattle.std.specs.Prelude.{◌≡◌, ◌∷◌, [], List, Some, IfOk};
ghost use Rattle.fo_terms.specs.declared.term.FoTerm.{FoTerm};
ghost use Rattle.fo_terms.specs.declared.atom.Atom.TheVariants.{Eq};
ghost use Rattle.fo_infer.specs.Inferences.{atom_equations};
ghost use Rattle.hol_lift.specs.inner.Unifying.{HasUnifier, IsUnifier, AtomsUnify, SidesUnify};

use fo_terms::{Atom, FoTerm};
use fo_unify::{Subst, unify, unify_both};
use std::alloc::Global;
use text_kit::NoMemory;

/// A most general unifier of two terms that have one.
pub fn unifier(alloc: Global, s: &FoTerm, t: &FoTerm) -> Result<Subst, NoMemory>
    requires { HasUnifier ((s.now, t.now) ∷ []) }
    ensures { IfOk result (λ u. IsUnifier ((s.now, t.now) ∷ []) u.binds) }
{
    match unify(alloc, s, t)? {
        None => unreachable!(),
        Some(u) => Ok(u),
    }
}

/// A most general unifier of two pairs of terms that have one.
fn unifier_of_both(
    alloc: Global,
    s: &FoTerm,
    x: &FoTerm,
    t: &FoTerm,
    y: &FoTerm,
) -> Result<Subst, NoMemory>
    requires { HasUnifier ((s.now, x.now) ∷ (t.now, y.now) ∷ []) }
    ensures { IfOk result (λ u. IsUnifier ((s.now, x.now) ∷ (t.now, y.now) ∷ []) u.binds) }
{
    match unify_both(alloc, (s, x), (t, y))? {
        None => unreachable!(),
        Some(u) => Ok(u),
    }
}

/// A most general unifier of two atoms of one kind that have one, sides in order.
pub fn atoms_unifier(alloc: Global, a: &Atom, b: &Atom) -> Result<Subst, NoMemory>
    requires { AtomsUnify a.now b.now }
    ensures { IfOk result (λ u. (es : List (FoTerm × FoTerm)) → atom_equations a.now b.now ≡ Some es → IsUnifier es u.binds) }
{
    match a {
        Atom::Holds(s) => match b {
            Atom::Holds(t) => unifier(alloc, s, t),
            Atom::Eq(_, _) => unreachable!(),
        },
        Atom::Eq(s, t) => match b {
            Atom::Holds(_) => unreachable!(),
            Atom::Eq(x, y) => unifier_of_both(alloc, s, x, t, y),
        },
    }
}

/// A most general unifier of the sides of an equation that have one.
pub fn equation_unifier(alloc: Global, a: &Atom) -> Result<Subst, NoMemory>
    requires { SidesUnify a.now }
    ensures { IfOk result (λ u. (s t : FoTerm) → a.now ≡ Eq s t → IsUnifier ((s, t) ∷ []) u.binds) }
{
    match a {
        Atom::Holds(_) => unreachable!(),
        Atom::Eq(s, t) => unifier(alloc, s, t),
    }
}
