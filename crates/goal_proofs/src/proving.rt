ghost use Rattle.std.specs.Prelude.{◌≡◌, IsTrue, IfOk};
ghost use Rattle.fo_infer.specs.Inferences.{tagged_position};
ghost use Rattle.fo_infer.specs.Lines.{Refutes as LinesRefute};
ghost use Rattle.kernel_rules.specs.Derivations.{Proves, leaves, last_of};
ghost use Rattle.kernel_rules.specs.Rules.{seq};
ghost use Rattle.std.specs.FinSet as set;
ghost use Rattle.std.specs.Prelude.{Some};
ghost use Rattle.hol_kernel.specs.Growth.{Extends, SameFacts};
ghost use Rattle.goal_search.specs.Fitting.{AllFit, goal_fits};
ghost use Rattle.goal_search.specs.Encoded.{inputs};
ghost use Rattle.goal_proofs.specs.inner.Sourced.{Refutes};

use crate::refuting::refute;
use fo_infer::Refutation;
use hol_kernel::{Log, Step, ThmId};
use hol_terms::Env;
use std::alloc::Global;
use text_kit::{NoMemory, Rows};

/// From a theorem that concludes `false` under the negated goal to the goal.
fn conclude(log: &mut Log, refuted: ThmId) -> Result<(), NoMemory>
    requires { Refutes log.old refuted.0 }
    ensures kept { Extends log.old log.new }
    ensures facts { SameFacts log.old log.new }
    ensures last { IfOk result (λ _. last_of log.new.sequents ≡ Some (seq set.empty log.new.env.goal)) }
{
    let env = log.env();
    let _ = log.classical(&env.goal, refuted)?;
    Ok(())
}

/// The steps of the kernel that prove the goal from these facts, where the lines refute what a search for the goal is given with them.
///
/// The fact steps are those of the facts, in their order. There is no answer 'not lifted': want of memory is the only refusal.
pub fn prove(
    alloc: Global,
    env: &Env,
    facts: &[u32],
    r: &Refutation,
) -> Result<Rows<Step>, NoMemory>
    requires facts { AllFit env.now facts.now }
    requires goal { IsTrue (goal_fits env.now) }
    requires refutes { LinesRefute tagged_position (inputs env.now facts.now) r.now.lines }
    ensures proves { IfOk result (λ steps. Proves env.now steps) }
    ensures leaves { IfOk result (λ steps. leaves steps ≡ facts.now) }
{
    let mut log = Log::begin(alloc, env);
    let refuted = refute(alloc, &mut log, facts, r)?;
    conclude(&mut log, refuted)?;
    Ok(log.into_steps())
}
