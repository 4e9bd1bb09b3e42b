ghost use Rattle.std.specs.Prelude.{IfOk};
ghost use Rattle.hyp_sets.specs.Sets.{only};
ghost use Rattle.hol_kernel.specs.Growth.{Extends, SameFacts};
ghost use Rattle.hol_clausify.specs.inner.Parts.{part_of, whole_of, IsReady};
ghost use Rattle.hol_clausify.specs.inner.Refuting.{IsFalse, Lands};

use hol_kernel::{Log, ThmId};
use hol_refutations::{
    all_at, and_left, and_right, not_all_named, not_implies, not_not, not_or_left, not_or_right,
    not_some_at, some_named,
};
use hol_terms::{Term, Ty};
use text_kit::NoMemory;

/// A quantified formula's bound type, its lambda and this one's body, and a value with the body's part for it.
#[derive(Clone, Copy)]
pub struct Instance<'a> {
    pub ty: &'a Ty,
    pub property: &'a Term,
    pub body: &'a Term,
    pub value: &'a Term,
    pub part: &'a Term,
}

/// A whole and the one part of it from which it is refuted. Those of chosen values have the theorem by which the value is
/// called.
#[derive(Clone, Copy)]
pub enum Part<'a> {
    NotNot(&'a Term),
    AndLeft(&'a Term, &'a Term),
    AndRight(&'a Term, &'a Term),
    NotOrLeft(&'a Term, &'a Term),
    NotOrRight(&'a Term, &'a Term),
    NotImpliesLeft(&'a Term, &'a Term),
    NotImpliesRight(&'a Term, &'a Term),
    AllAt(Instance<'a>),
    NotSomeAt(Instance<'a>),
    SomeNamed(Instance<'a>, ThmId),
    NotAllNamed(Instance<'a>, ThmId),
}

/// A refutation of the whole from one of the part.
pub fn refute_from(log: &mut Log, part: Part, th: ThmId) -> Result<ThmId, NoMemory>
    requires ready { IsReady log.old part }
    requires refuted { IsFalse log.old th.0 }
    ensures kept { Extends log.old log.new }
    ensures facts { SameFacts log.old log.new }
    ensures gives { IfOk result (λ r. Lands log.old log.new (part_of part.entry) th.0 (only (whole_of part.entry)) r.0) }
{
    match part {
        Part::NotNot(a) => not_not(log, a, th),
        Part::AndLeft(a, b) => and_left(log, a, b, th),
        Part::AndRight(a, b) => and_right(log, a, b, th),
        Part::NotOrLeft(a, b) => not_or_left(log, a, b, th),
        Part::NotOrRight(a, b) => not_or_right(log, a, b, th),
        Part::NotImpliesLeft(a, b) => not_implies(log, a, b, th),
        Part::NotImpliesRight(a, b) => not_implies(log, a, b, th),
        Part::AllAt(x) => all_at(log, x.ty, x.property, x.value, th),
        Part::NotSomeAt(x) => not_some_at(log, x.property, x.value, x.part, th),
        Part::SomeNamed(x, name) => some_named(log, x.ty, x.property, name, th),
        Part::NotAllNamed(x, name) => not_all_named(log, x.ty, x.body, name, th),
    }
}
