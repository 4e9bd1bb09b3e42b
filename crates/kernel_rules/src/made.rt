ghost use Rattle.std.specs.Prelude.{◌≡◌, None, Ok, IfOk, slice_get};
ghost use Rattle.std.specs.Option.{option_copied, unwrap_or};
ghost use Rattle.kernel_rules.specs.Derivations.{sequent};
ghost use Rattle.kernel_rules.specs.Formulas.{AreOver};

use crate::equality::{abs, beta, iff, refl, subst};
use crate::propositional::{
    and_intro, and_left, and_right, assume, classical, fact, imp_elim, imp_intro, not_elim,
    not_intro, or_elim, or_left, or_right, true_intro,
};
use crate::quantifiers::{all_elim, all_intro, choose, ex_intro, inst};
use crate::sequent::Sequent;
use crate::step::{Step, ThmId};
use hol_terms::Env;
use std::alloc::Global;
use text_kit::{NoMemory, Rows};

fn at<'s>(earlier: &'s Rows<Sequent>, a: &ThmId) -> Option<&'s Sequent>
    ensures { option_copied result ≡ slice_get earlier.now a.now.0 }
{
    earlier.get(a.0 as usize)
}

/// What the step's rule answers, where the step's premises are there.
#[tactic(none)]
fn answer(
    alloc: Global,
    env: &Env,
    step: &Step,
    earlier: &Rows<Sequent>,
) -> Option<Result<Option<Sequent>, NoMemory>>
    requires { AreOver env.now.sig earlier.now }
    ensures { IfOk (unwrap_or result (Ok None)) (λ o. o ≡ sequent env.now step.now earlier.now) }
{
    match step {
        Step::Fact(n) => Some(fact(alloc, env.facts.get(*n as usize)?)),
        Step::Assume(t) => Some(assume(alloc, &env.sig, t)),
        Step::ImpIntro(t, a) => Some(imp_intro(alloc, &env.sig, t, at(earlier, a)?)),
        Step::ImpElim(ab, a) => Some(imp_elim(alloc, at(earlier, ab)?, at(earlier, a)?)),
        Step::AndIntro(a, b) => Some(and_intro(alloc, at(earlier, a)?, at(earlier, b)?)),
        Step::AndLeft(ab) => Some(and_left(at(earlier, ab)?)),
        Step::AndRight(ab) => Some(and_right(at(earlier, ab)?)),
        Step::OrLeft(t, a) => Some(or_left(alloc, &env.sig, t, at(earlier, a)?)),
        Step::OrRight(t, b) => Some(or_right(alloc, &env.sig, t, at(earlier, b)?)),
        Step::OrElim(ab, l, r) => Some(or_elim(
            alloc,
            at(earlier, ab)?,
            at(earlier, l)?,
            at(earlier, r)?,
        )),
        Step::NotIntro(t, a) => Some(not_intro(alloc, &env.sig, t, at(earlier, a)?)),
        Step::NotElim(na, a) => Some(not_elim(alloc, at(earlier, na)?, at(earlier, a)?)),
        Step::TrueIntro => Some(true_intro(alloc)),
        Step::Classical(t, a) => Some(classical(alloc, &env.sig, t, at(earlier, a)?)),
        Step::AllIntro(n, ty, a) => Some(all_intro(alloc, &env.sig, *n, ty, at(earlier, a)?)),
        Step::AllElim(t, a) => Some(all_elim(alloc, &env.sig, t, at(earlier, a)?)),
        Step::ExIntro(f, t, a) => Some(ex_intro(alloc, &env.sig, f, t, at(earlier, a)?)),
        Step::Choose(a) => Some(choose(alloc, at(earlier, a)?)),
        Step::Refl(t) => Some(refl(alloc, &env.sig, t)),
        Step::Subst(f, eq, a) => Some(subst(alloc, &env.sig, f, at(earlier, eq)?, at(earlier, a)?)),
        Step::Beta(t) => Some(beta(alloc, &env.sig, t)),
        Step::Abs(n, ty, a) => Some(abs(alloc, &env.sig, *n, ty, at(earlier, a)?)),
        Step::Iff(ab, ba) => Some(iff(alloc, at(earlier, ab)?, at(earlier, ba)?)),
        Step::Inst(n, ty, t, a) => Some(inst(alloc, &env.sig, *n, ty, t, at(earlier, a)?)),
    }
}

/// The sequent that a step gives over the sequents before it, where it gives one.
pub fn sequent_of(
    alloc: Global,
    env: &Env,
    step: &Step,
    earlier: &Rows<Sequent>,
) -> Result<Option<Sequent>, NoMemory>
    requires { AreOver env.now.sig earlier.now }
    ensures { IfOk result (λ o. o ≡ sequent env.now step.now earlier.now) }
{
    answer(alloc, env, step, earlier).unwrap_or(Ok(None))
}
