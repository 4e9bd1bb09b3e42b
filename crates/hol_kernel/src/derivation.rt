ghost use Rattle.hol_kernel.specs.Checking.{Checked};

use crate::{Log, StepFault};
use hol_terms::Env;
use kernel_rules::Step;
use std::alloc::Global;
use text_kit::Rows;

/// The log of these steps, or the place of the first that has no sequent.
#[tactic(none)]
pub fn checked<'e>(alloc: Global, env: &'e Env, steps: Rows<Step>) -> Result<Log<'e>, StepFault>
    ensures { Checked env.now steps result }
{
    let mut log = Log::begin(alloc, env);
    for step in steps.into_vec() {
        log.try_step(step)?;
    }
    Ok(log)
}
