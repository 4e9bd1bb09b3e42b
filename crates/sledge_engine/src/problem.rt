ghost use Rattle.std.specs.Prelude.{◌≡◌, ◌<◌, [], length, map, IfOk};
ghost use Rattle.theory_reader.specs.Seen.{IsEnvOf};
ghost use Rattle.tptp_print.specs.Problems.{problem_text as text_of};
ghost use Rattle.sledge_engine.specs.Filter.{slice_choice};
ghost use Rattle.sledge_engine.specs.Problem.{ProblemReply};
ghost use Rattle.sledge_engine.specs.Texts.{Is};
ghost use Rattle.sledge_engine.specs.inner.Fetches.{outside};
ghost use Rattle.sledge_engine.specs.inner.Shown.{slice_shown};

use crate::posing::{Posed, open_goal};
use crate::slices::chosen_by_slice;
use crate::words::SliceLine;
use hol_terms::Env;
use mepo_filter::Chosen;
use race_outside::Shelf;
use std::alloc::Global;
use text_kit::{Bytes, NoMemory, Rows};
use theory_reader::Theory;
use tptp_print::problem_text;

/// The numbers of chosen facts, in their order.
pub(crate) fn numbers(alloc: Global, chosen: &[Chosen]) -> Result<Rows<u32>, NoMemory>
    ensures { IfOk result (λ out. out ≡ map (λ c. c.fact) chosen.now) }
{
    let mut out = Rows::begin(alloc);
    for c in chosen {
        out.push(c.fact)?;
    }
    Ok(out)
}

/// Answers a goal over its environment.
fn answer_goal(
    alloc: Global,
    theory: &Theory,
    goal: u32,
    env: &Env,
    slice: u32,
    text: &mut Bytes,
) -> Result<u8, NoMemory>
    requires goal { goal < length theory.now.goals }
    requires env { IsEnvOf theory.now goal env.now }
    requires slice { slice < 64 }
    requires text { text.old ≡ [] }
    ensures { IfOk result (λ status. Is 0 (text_of theory.now goal (map (λ c. c.fact) (slice_choice theory.now goal slice))) status text.new) }
{
    let chosen = chosen_by_slice(alloc, theory, goal, env, slice)?;
    let facts = numbers(alloc, chosen.as_slice())?;
    let made = problem_text(alloc, theory, goal, &facts)?;
    text.append(made.as_slice())?;
    Ok(0)
}

/// Answers a line of `problem`: puts the text and gives the status.
pub(crate) fn answer_problem<H: Shelf>(
    alloc: Global,
    line: SliceLine,
    shelf: &mut H,
    text: &mut Bytes,
) -> Result<u8, NoMemory>
    requires slice { line.slice < 64 }
    requires text { text.old ≡ [] }
    ensures { IfOk result (λ status. ProblemReply (outside (H.held shelf.old) (H.sure shelf.old) (H.faults shelf.old) (H.faults shelf.new)) (slice_shown line.entry) status text.new) }
{
    match open_goal(alloc, line.theory, line.goal, shelf, text)? {
        Posed::Goal(theory, goal, env) => {
            answer_goal(alloc, &theory, goal, &env, line.slice, text)
        }
        Posed::Refused(status) => Ok(status),
    }
}
