ghost use Rattle.std.specs.Prelude.{◌≡◌, ◌<◌, ◌++◌, IfOk, OnOk, length, map};
ghost use Rattle.theory_reader.specs.Seen.{seen};

use std::alloc::Global;
use text_kit::NoMemory;
use theory_reader::{Fact, Theory};

/// Appends facts, lent.
fn push_facts<'t>(out: &mut Vec<&'t Fact>, facts: &'t [Fact]) -> Result<(), NoMemory>
    ensures { OnOk result (map (λ f. f.now) out.new.items ≡ map (λ f. f.now) out.old.items ++ facts.now) }
{
    for fact in facts {
        if out.push(fact).is_err() {
            return Err(NoMemory);
        }
    }
    Ok(())
}

/// The facts that a goal may be proved from, by their numbers: those before it, and then its assumptions.
pub(crate) fn seen_facts<'t>(
    alloc: Global,
    theory: &'t Theory,
    goal: u32,
) -> Result<Vec<&'t Fact>, NoMemory>
    requires { goal < length theory.now.goals }
    ensures { IfOk result (λ out. map (λ f. f.now) out.items ≡ seen theory.now goal) }
{
    let posed = theory.goals.at(goal as usize);
    let before = theory.facts.len().min(posed.before as usize);
    let mut out = Vec::new(alloc);
    push_facts(&mut out, &theory.facts.as_slice()[..before])?;
    push_facts(&mut out, posed.assumes.as_slice())?;
    Ok(out)
}
