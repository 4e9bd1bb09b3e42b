ghost use Rattle.std.specs.Prelude.{◌≡◌, ◌&&◌, List, [], Some, IsTrue, IsSome, IfOk, All};
ghost use Rattle.hol_terms.specs.Formulas.{aux_free, IsSentence};
ghost use Rattle.hol_terms.specs.Typing.{type_of_term};
ghost use Rattle.kernel_rules.specs.Derivations.{leaf, leaves, derived};
ghost use Rattle.kernel_rules.specs.declared.sequent.Sequent.{Sequent};
ghost use Rattle.model_truth.specs.Truth.{IsValid, FactIsTrue, Refutes, HasNoProof, AreTrueIn};
ghost use Rattle.fin_model.specs.Fitting.{fits};
ghost use Rattle.fin_model.specs.Given.{given, IsGiven};
ghost use Rattle.fin_model.specs.Limits.{is_within};
ghost use Rattle.fin_model.specs.Refutation.{IsEvaluated, Tells, fact_within, facts_within};

use crate::around::Around;
use crate::evaluating::worth;
use crate::world::World;
use crate::{EvalFault, Model, Valued};
use hol_terms::{Env, Sig, Term};
use kernel_rules::Step;
use std::alloc::Global;
use text_kit::Rows;

/// The value of a term in a model, where `free` gives its free variables their values.
///
/// A variable counts by its number and its type; of two entries for one variable the first counts. What may follow
/// from the value is said by `countermodels_refute` and `derivations_keep_truth` of `model_truth`.
///
/// `TooBig` comes exactly where a type that is measured has more than 65,536 values, or where the product of the sizes of
/// the binders around a measured term is above 4,096; `NoMemory` for want of memory.
pub fn eval(
    alloc: Global,
    sig: &Sig,
    model: &Model,
    free: &Rows<Valued>,
    t: &Term,
) -> Result<u64, EvalFault>
    requires fits { IsTrue (fits sig.now model.now) }
    requires typed { IsSome (type_of_term sig.now t.now) }
    requires aux { IsTrue (aux_free t.now) }
    requires free { IsGiven model.now (given free.now) t.now }
    ensures { IsEvaluated sig.now model.now (given free.now) t.now result }
{
    let world = World { sig, model, free };
    worth(alloc, &world, t, &Around::Outside, 1)
}

fn both(a: bool, b: bool) -> bool
    ensures { result ≡ (a && b) }
{
    a && b
}

/// Whether a sentence is true in a model.
fn is_true(alloc: Global, sig: &Sig, model: &Model, t: &Term) -> Result<bool, EvalFault>
    requires fits { IsTrue (fits sig.now model.now) }
    requires sentence { IsSentence sig.now t.now }
    ensures { Tells (IsValid sig.now model.now t.now) (is_within sig.now model.now t.now []) result }
{
    let free = Rows::begin(alloc);
    Ok(eval(alloc, sig, model, &free, t)? == 1)
}

/// Whether the fact with a number is true in a model. A number that no fact has asks nothing.
fn is_true_fact(alloc: Global, env: &Env, model: &Model, n: u32) -> Result<bool, EvalFault>
    requires { IsTrue (fits env.now.sig model.now) }
    ensures { Tells (FactIsTrue env.now model.now n) (fact_within env.now model.now n) result }
{
    match env.facts.get(n as usize) {
        Some(t) => is_true(alloc, &env.sig, model, t),
        None => Ok(true),
    }
}

/// Whether the facts with these numbers are true in a model.
fn are_true_facts(alloc: Global, env: &Env, model: &Model, facts: &[u32]) -> Result<bool, EvalFault>
    requires { IsTrue (fits env.now.sig model.now) }
    ensures { Tells (All (FactIsTrue env.now model.now) facts.now) (facts_within env.now model.now facts.now) result }
{
    let mut all = true;
    for n in facts {
        let own = is_true_fact(alloc, env, model, *n)?;
        all = both(own, all);
    }
    Ok(all)
}

/// Whether the facts are true in the model and the goal isn't. Where it is so, no steps prove the goal from these facts.
///
/// `TooBig` comes exactly where one of the formulas has it (see [`eval`]).
pub fn refutes(
    alloc: Global,
    env: &Env,
    model: &Model,
    facts: &Rows<u32>,
) -> Result<bool, EvalFault>
    requires { IsTrue (fits env.now.sig model.now) }
    ensures answer { Tells (Refutes env.now model.now facts.now) (facts_within env.now model.now facts.now && is_within env.now.sig model.now env.now.goal []) result }
    ensures no_proof { IfOk result (λ b. IsTrue b → HasNoProof env.now facts.now) }
{
    let facts_hold = are_true_facts(alloc, env, model, facts.as_slice())?;
    let goal_holds = is_true(alloc, &env.sig, model, &env.goal)?;
    Ok(both(facts_hold, !goal_holds))
}

/// Whether the fact that a step names is true in the model, where it names one.
fn is_true_leaf(alloc: Global, env: &Env, model: &Model, step: &Step) -> Result<bool, EvalFault>
    requires { IsTrue (fits env.now.sig model.now) }
    ensures { Tells (All (FactIsTrue env.now model.now) (leaf step.now)) (facts_within env.now model.now (leaf step.now)) result }
{
    match step {
        Step::Fact(n) => is_true_fact(alloc, env, model, *n),
        _ => Ok(true),
    }
}

/// Whether the facts that the steps name are true in the model. Where it is so and every step has a sequent, every
/// sequent is true in it.
///
/// `TooBig` comes exactly where one of these facts has it (see [`eval`]).
pub fn leaves_true(
    alloc: Global,
    env: &Env,
    model: &Model,
    steps: &Rows<Step>,
) -> Result<bool, EvalFault>
    requires { IsTrue (fits env.now.sig model.now) }
    ensures answer { Tells (All (FactIsTrue env.now model.now) (leaves steps.now)) (facts_within env.now model.now (leaves steps.now)) result }
    ensures sequents { IfOk result (λ b. IsTrue b → (sequents : List Sequent) → derived env.now steps.now ≡ Some sequents → AreTrueIn env.now.sig model.now sequents) }
{
    let mut all = true;
    for step in steps.as_slice() {
        let own = is_true_leaf(alloc, env, model, step)?;
        all = both(own, all);
    }
    Ok(all)
}
