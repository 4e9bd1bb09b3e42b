ghost use Rattle.std.specs.Prelude.{◌≡◌, ◌<◌, ℕ, List, [], Some, IfOk, length};
ghost use Rattle.sledge_engine.specs.Choice.{goal_place};
ghost use Rattle.sledge_engine.specs.Files.{HoldsTheory, Outside};
ghost use Rattle.sledge_engine.specs.inner.Fetches.{outside};
ghost use Rattle.sledge_engine.specs.inner.Posing.{IsFoundGoal, IsPosed};

use crate::opening::{Opened, open_theory};
use crate::texts::put_refusal;
use formula_clauses::fits;
use hol_terms::Env;
use race_outside::Shelf;
use std::alloc::Global;
use text_kit::{Bytes, NoMemory};
use theory_reader::Theory;

/// A theory and a goal of it by its number, with what it may be proved from, or the status of a refusal whose text is put.
#[derive(Drop)]
pub(crate) enum Posed {
    Goal(Theory, u32, Env),
    Refused(u8),
}

/// A goal of a theory by its number, with what it may be proved from, or the status of a refusal whose text is put.
#[derive(Drop)]
pub(crate) enum Found {
    Goal(u32, Env),
    Refused(u8),
}

/// Looks whether a goal fits.
fn measure(
    alloc: Global,
    theory: &Theory,
    name: &str,
    goal: u32,
    text: &mut Bytes,
) -> Result<Found, NoMemory>
    requires place { goal_place theory.now name.now ≡ Some goal }
    requires goal { goal < length theory.now.goals }
    requires text { text.old ≡ [] }
    ensures { IfOk result (IsFoundGoal theory.now name.now text.new) }
{
    let env = theory.env(alloc, goal)?;
    if fits(alloc, &env.sig, &env.goal, true)? {
        Ok(Found::Goal(goal, env))
    } else {
        let status = put_refusal(text, 4, b"fault: goal ", name.as_bytes(), b" too large\n")?;
        Ok(Found::Refused(status))
    }
}

/// Finds the goal of this name in a theory.
pub(crate) fn find(
    alloc: Global,
    theory: &Theory,
    name: &str,
    text: &mut Bytes,
) -> Result<Found, NoMemory>
    requires { text.old ≡ [] }
    ensures { IfOk result (IsFoundGoal theory.now name.now text.new) }
{
    match theory.goal_named(name.as_bytes()) {
        Some(goal) => measure(alloc, theory, name, goal, text),
        None => {
            let status = put_refusal(text, 4, b"fault: goal ", name.as_bytes(), b"\n")?;
            Ok(Found::Refused(status))
        }
    }
}

/// Finds the goal of this name in a theory that was read.
fn pose(alloc: Global, theory: Theory, name: &str, text: &mut Bytes) -> Result<Posed, NoMemory>
    requires { text.old ≡ [] }
    ensures { IfOk result (λ posed. (o : Outside) (file : List ℕ) → HoldsTheory o.files file theory → IsPosed o file name.now text.new posed) }
{
    match find(alloc, &theory, name, text)? {
        Found::Goal(goal, env) => Ok(Posed::Goal(theory, goal, env)),
        Found::Refused(status) => Ok(Posed::Refused(status)),
    }
}

/// Fetches a theory file, reads it and finds the goal of this name.
pub(crate) fn open_goal<H: Shelf>(
    alloc: Global,
    theory: &str,
    name: &str,
    shelf: &mut H,
    text: &mut Bytes,
) -> Result<Posed, NoMemory>
    requires { text.old ≡ [] }
    ensures { IfOk result (IsPosed (outside (H.held shelf.old) (H.sure shelf.old) (H.faults shelf.old) (H.faults shelf.new)) theory.now name.now text.new) }
{
    match open_theory(alloc, theory, shelf, text)? {
        Opened::Read(theory) => pose(alloc, theory, name, text),
        Opened::Refused(status) => Ok(Posed::Refused(status)),
    }
}
