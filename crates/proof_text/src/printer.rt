ghost use Rattle.std.specs.Prelude.{◌≡◌, ◌<◌, length, IsTrue, IfOk};
ghost use Rattle.hol_terms.specs.declared.env.Env.{Env};
ghost use Rattle.kernel_rules.specs.Derivations.{Checks};
ghost use Rattle.theory_reader.specs.Seen.{IsEnvOf};
ghost use Rattle.proof_syntax.specs.Reading.{Reads};
ghost use Rattle.proof_syntax.specs.Texts.{proof_text, is_shallow};
ghost use Rattle.proof_text.specs.inner.Fitting.{steps_fit};

use crate::names::names_of;
use crate::steps::put_steps;
use kernel_rules::Step;
use std::alloc::Global;
use text_kit::{Bytes, NoMemory, Rows};
use theory_reader::Theory;

fn printed(alloc: Global, theory: &Theory, goal: u32, steps: &[Step]) -> Result<Bytes, NoMemory>
    requires { goal < length theory.now.goals }
    ensures text { IfOk result (λ out. out ≡ proof_text theory.now goal steps.now) }
    ensures fits { IfOk result (λ out. IsTrue (steps_fit steps.now)) }
{
    let stated = theory.goals.at(goal as usize);
    let names = names_of(theory, stated);
    let mut out = Bytes::begin(alloc);
    out.append(b"sledge proof 1\ngoal ")?;
    out.append(stated.name.as_slice())?;
    out.push(b'\n')?;
    put_steps(&mut out, &names, steps)?;
    out.append(b"end\n")?;
    Ok(out)
}

/// The text of a proof of the goal with this number.
///
/// Where the steps check and no term is nested above 4,096 deep, the text reads as the proof.
pub fn print_proof(
    alloc: Global,
    theory: &Theory,
    goal: u32,
    steps: &Rows<Step>,
) -> Result<Bytes, NoMemory>
    requires goal { goal < length theory.now.goals }
    ensures text { IfOk result (λ out. out ≡ proof_text theory.now goal steps.now) }
    ensures again { (env : Env) → IsEnvOf theory.now goal env → Checks env steps.now → IsTrue (is_shallow steps.now) → IfOk result (λ out. Reads theory.now out (record { goal = goal; steps = steps.now })) }
{
    printed(alloc, theory, goal, steps.as_slice())
}
