ghost use Rattle.std.specs.Prelude.{◌≡◌, List, [], ◌∷◌, ◌++◌, Some, OnOk, OnErr};
ghost use Rattle.kernel_rules.specs.declared.sequent.Sequent.{Sequent};
ghost use Rattle.kernel_rules.specs.Derivations.{derived};
ghost use Rattle.hol_kernel.specs.Growth.{Attempts};
ghost use Rattle.hol_kernel.specs.Logs.{logged};

use crate::fault::StepFault;
use hol_terms::Env;
use kernel_rules::{Sequent, Step, ThmId, sequent_of};
use std::alloc::Global;
use text_kit::{NoMemory, Rows};

/// Appends a step and a sequent. A refusal leaves both lists as they were.
#[tactic(none)]
fn both(
    steps: &mut Rows<Step>,
    sequents: &mut Rows<Sequent>,
    step: Step,
    q: Sequent,
) -> Result<(), NoMemory>
    ensures steps { OnOk result (steps.new ≡ steps.old ++ step ∷ []) }
    ensures sequents { OnOk result (sequents.new ≡ sequents.old ++ q ∷ []) }
    ensures steps_stay { OnErr result (steps.new ≡ steps.old) }
    ensures sequents_stay { OnErr result (sequents.new ≡ sequents.old) }
{
    match sequents.push(q) {
        Ok(()) => with_step(steps, sequents, step),
        Err(NoMemory) => {
            drop(step);
            Err(NoMemory)
        }
    }
}

/// Appends a step behind its sequent, which is taken away again where the step is refused.
#[tactic(none)]
fn with_step(
    steps: &mut Rows<Step>,
    sequents: &mut Rows<Sequent>,
    step: Step,
) -> Result<(), NoMemory>
    ensures steps { OnOk result (steps.new ≡ steps.old ++ step ∷ []) }
    ensures sequents { OnOk result (sequents.new ≡ sequents.old) }
    ensures steps_stay { OnErr result (steps.new ≡ steps.old) }
    ensures last { OnErr result ((q : Sequent) → (front : List Sequent) → sequents.old ≡ front ++ q ∷ [] → sequents.new ≡ front) }
{
    match steps.push(step) {
        Ok(()) => Ok(()),
        Err(NoMemory) => {
            drop(sequents.pop());
            Err(NoMemory)
        }
    }
}

/// Appends a step and its sequent where it has one. A refused step leaves both lists as they were.
#[tactic(none)]
pub(crate) fn try_append(
    alloc: Global,
    env: &Env,
    steps: &mut Rows<Step>,
    sequents: &mut Rows<Sequent>,
    step: Step,
) -> Result<ThmId, StepFault>
    requires { derived env.now steps.old ≡ Some sequents.old }
    ensures { Attempts (logged env.now steps.old sequents.old) (logged env.now steps.new sequents.new) step result }
{
    let at = steps.len() as u64;
    match sequent_of(alloc, env, &step, sequents) {
        Ok(Some(q)) => match both(steps, sequents, step, q) {
            Ok(()) => Ok(ThmId(at)),
            Err(NoMemory) => Err(StepFault::NoMemory),
        },
        Ok(None) => {
            drop(step);
            Err(StepFault::Refused { at })
        }
        Err(NoMemory) => {
            drop(step);
            Err(StepFault::NoMemory)
        }
    }
}
