ghost use Rattle.std.specs.Prelude.{◌≡◌, IfOk};
ghost use Rattle.kernel_rules.specs.Derivations.{Proves, leaves};
ghost use Rattle.slot_work.specs.Replays.{IsProof};
ghost use Rattle.slot_work.specs.inner.Finding.{Finds};

use crate::searches::{Searches, minimised, refutation};
use goal_proofs::prove;
use hol_kernel::Proven;
use hol_terms::Env;
use std::alloc::Global;
use text_kit::{NoMemory, Rows};

/// The proof from facts that the search finds.
pub fn proven(alloc: Global, env: &Env, names: Rows<u32>, budget: u32) -> Result<Proven, NoMemory>
    requires { Finds env.now budget names }
    ensures names { IfOk result (λ p. p.names ≡ names) }
    ensures proves { IfOk result (λ p. Proves env.now p.steps) }
    ensures leaves { IfOk result (λ p. leaves p.steps ≡ names) }
{
    let r = refutation(alloc, env, names.as_slice(), budget)?;
    let steps = prove(alloc, env, names.as_slice(), &r)?;
    Ok(Proven { names, steps })
}

/// The proof from minimal facts of those that the search finds.
pub fn minimal_proof(
    alloc: Global,
    env: &Env,
    facts: &Rows<u32>,
    budget: u32,
) -> Result<Proven, NoMemory>
    requires { Finds env.now budget facts.now }
    ensures { IfOk result (IsProof env.now facts.now budget) }
{
    let mut searches = Searches { alloc, env, budget };
    let kept = minimised(alloc, &mut searches, facts.copy(alloc)?)?;
    proven(alloc, env, kept, budget)
}
