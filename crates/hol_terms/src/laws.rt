ghost use Rattle.hol_terms.specs.Laws.{TypedIsClosed, ClosedHasOneType, SubstitutionKeepsTypes, AbstractionKeepsTypes, ReplacementKeepsTypes};

use crate::{Sig, Term, Ty};

/// A term that has a type standing alone has no loose index.
pub fn typed_is_closed(sig: &Sig, t: &Term)
    ensures { TypedIsClosed sig.now t.now }
{}

/// A term without loose indexes has one type under all binders.
pub fn closed_has_one_type(sig: &Sig, t: &Term)
    ensures { ClosedHasOneType sig.now t.now }
{}

/// `t[u]` has the type of `t` under a binder of the type of `u`.
pub fn substitution_keeps_types(sig: &Sig, s: &Ty, t: &Term, u: &Term)
    ensures { SubstitutionKeepsTypes sig.now s.now t.now u.now }
{}

/// The body of the lambda over a variable has the type of the term that it was made of.
pub fn abstraction_keeps_types(sig: &Sig, n: u64, ty: &Ty, t: &Term)
    ensures { AbstractionKeepsTypes sig.now n ty.now t.now }
{}

/// A term put for a variable of its type leaves the type of the whole.
pub fn replacement_keeps_types(sig: &Sig, n: u64, ty: &Ty, u: &Term, t: &Term)
    ensures { ReplacementKeepsTypes sig.now n ty.now u.now t.now }
{}
