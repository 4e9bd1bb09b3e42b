ghost use Rattle.std.specs.Prelude.{◌≡◌, ◌<◌, ◌^◌, length, IfOk};
ghost use Rattle.theory_reader.specs.Seen.{IsEnvOf};
ghost use Rattle.slot_work.specs.Visible.{visible as visible_of, goal_fits as goal_fits_in};

use crate::using::{fits_as_fact, push_if};
use formula_clauses::fits;
use hol_terms::Env;
use std::alloc::Global;
use text_kit::{NoMemory, Rows};
use theory_reader::Theory;

/// The numbers of an environment's facts that fit.
fn fitting(alloc: Global, theory: &Theory, goal: u32, env: &Env) -> Result<Rows<u32>, NoMemory>
    requires { IsEnvOf theory.now goal env.now }
    ensures { IfOk result (λ v. v ≡ visible_of theory.now goal) }
{
    let mut out = Rows::begin(alloc);
    for i in 0..env.facts.len() {
        let fits = fits_as_fact(alloc, env, i)?;
        push_if(&mut out, fits, i as u32)?;
    }
    Ok(out)
}

/// The facts that a goal may be proved from: the numbers of those beside it that fit, ascending.
pub fn visible(alloc: Global, theory: &Theory, goal: u32) -> Result<Rows<u32>, NoMemory>
    requires { goal < length theory.now.goals }
    ensures { IfOk result (λ v. v ≡ visible_of theory.now goal) }
{
    let env = theory.env(alloc, goal)?;
    fitting(alloc, theory, goal, &env)
}

/// Whether a goal isn't too large to be made clauses.
pub fn goal_fits(alloc: Global, theory: &Theory, goal: u32) -> Result<bool, NoMemory>
    requires { goal < length theory.now.goals }
    ensures { IfOk result (λ b. b ≡ goal_fits_in theory.now goal) }
{
    let env = theory.env(alloc, goal)?;
    fits(alloc, &env.sig, &env.goal, true)
}
