ghost use Rattle.hol_clauses.specs.Laws.{MayComeAgain, ResolventLands, ReflexivityLands, ParamodulantLands, InstanceLands, InTurnIsAtOnce};

use crate::{Binding, TypedLiteral};
use hol_terms::Term;
use hyp_sets::Hyps;

/// Factoring, repeats, another order and literals of one meaning are no step: the theorem of a clause is one of each clause
/// that has the same literals.
pub fn literals_may_come_again(p: &[TypedLiteral], q: &[TypedLiteral])
    ensures { MayComeAgain p.now q.now }
{}

/// What `resolve` gives is a theorem of the resolvent.
pub fn resolvent_lands(a: &Term, left: &Hyps, right: &Hyps)
    ensures { ResolventLands a.now left.now right.now }
{}

/// What `reflexivity` gives is a theorem of the clause without the literal.
pub fn reflexivity_lands(e: &Term, hyps: &Hyps)
    ensures { ReflexivityLands e.now hyps.now }
{}

/// What `paramodulate` gives is a theorem of the paramodulant, which has the atom `b` in the place of that of `l`.
pub fn paramodulant_lands(e: &Term, l: &TypedLiteral, b: &Term, left: &Hyps, right: &Hyps)
    ensures { ParamodulantLands e.now l.now b.now left.now right.now }
{}

/// What `instantiate` gives is a theorem of the clause's instance, where the base has none of the variables.
pub fn instance_lands(bindings: &[Binding], hyps: &Hyps)
    ensures { InstanceLands bindings.now hyps.now }
{}

/// Bindings that are solved, one after another, are one replacement at once.
pub fn in_turn_is_at_once(bindings: &[Binding], t: &Term)
    ensures { InTurnIsAtOnce bindings.now t.now }
{}
