ghost use Rattle.std.specs.Prelude.{◌≡◌, ◌<◌, ◌≤◌, [], IfOk, IsTrue, length, map, string_bytes};
ghost use Rattle.theory_reader.specs.Seen.{IsEnvOf};
ghost use Rattle.sledge_words.specs.Lines.{IsLine};
ghost use Rattle.slot_work.specs.Visible.{goal_fits};
ghost use Rattle.sledge_engine.specs.Runs.{drill_contest, prove_contest};
ghost use Rattle.sledge_engine.specs.inner.Fetches.{outside};
ghost use Rattle.sledge_engine.specs.Files.{Outside};
ghost use Rattle.sledge_engine.specs.inner.Preparing.{IsDrillEntry, IsGenerated, IsProveEntry, IsReady};
ghost use Rattle.sledge_engine.specs.inner.Trials.{IsContest, IsPrepared};

use crate::commands::answer_line;
use crate::contest::Contest;
use crate::opening::{Opened, read_theory};
use crate::orders::{Ground, Plan, plan_slots};
use crate::posing::{Found, Posed, find, open_goal};
use crate::texts::put_usage;
use crate::trial::{Entry, Prepared, Telling, Trial};
use crate::visible::visible_facts;
use crate::words::{arguments, goal_line};
use hol_terms::Env;
use race_outside::Shelf;
use sledge_words::{Command, Line, WordsFault, read_words};
use std::alloc::Global;
use std::thread::Threads;
use text_kit::{Bytes, NoMemory, Rows};
use theory_gen::make;
use theory_reader::Theory;

/// How many slots the race of `drill` has.
const DRILL_SLICES: u32 = 4;

/// Picks of each replay in the race of `drill`.
const DRILL_BUDGET: u32 = 2_000;

/// What a race for a goal needs besides.
#[derive(Drop)]
struct Ready {
    visible: Rows<u32>,
    plan: Plan,
}

/// Finds the facts that a goal may be proved from, and plans its race.
fn plan_race<R: Threads + Sync>(
    rt: &R,
    alloc: Global,
    theory: &Theory,
    goal: u32,
    env: &Env,
    contest: &Contest,
) -> Result<Ready, NoMemory>
    requires goal { goal < length theory.now.goals }
    requires env { IsEnvOf theory.now goal env.now }
    requires slices { contest.now.slices ≤ 64 }
    ensures { IfOk result (IsReady theory.now goal contest.now) }
{
    let visible = visible_facts(alloc, env)?;
    let ground = Ground {
        theory,
        goal,
        visible: &visible,
    };
    let plan = plan_slots(rt, alloc, ground, &contest.prover, contest.slices)?;
    Ok(Ready { visible, plan })
}

/// What the race of a line of `prove` is run with.
fn prove_contest_of(alloc: Global, line: &Line) -> Result<Contest, NoMemory>
    ensures { IfOk result (λ c. c ≡ prove_contest line.now) }
{
    Ok(Contest {
        slices: line.slices,
        workers: line.workers,
        budget: line.budget,
        limit: line.timeout,
        prover: line.prover.copy(alloc)?,
    })
}

/// What the race of a line of `drill` is run with.
fn drill_contest_of(alloc: Global, line: &Line) -> Result<Contest, NoMemory>
    ensures { IfOk result (λ c. c ≡ drill_contest line.now) }
{
    Ok(Contest {
        slices: DRILL_SLICES,
        workers: line.workers,
        budget: DRILL_BUDGET,
        limit: None,
        prover: line.prover.copy(alloc)?,
    })
}

/// Enters the race of a line of `prove`.
fn enter_prove<R: Threads + Sync>(
    rt: &R,
    alloc: Global,
    line: &Line,
    theory: Theory,
    goal: u32,
    env: &Env,
) -> Result<Entry, NoMemory>
    requires goal { goal < length theory.goals }
    requires env { IsEnvOf theory goal env.now }
    requires fits { IsTrue (goal_fits theory goal) }
    requires contest { IsContest (prove_contest line.now) }
    ensures { IfOk result (IsProveEntry line.now theory goal) }
{
    let contest = prove_contest_of(alloc, line)?;
    let Ready { visible, plan } = plan_race(rt, alloc, &theory, goal, env, &contest)?;
    let Plan { orders, chosen: _ } = plan;
    Ok(Entry {
        trial: Trial {
            theory,
            goal,
            contest,
            telling: Telling::Prove(line.proof),
        },
        visible,
        orders,
    })
}

/// Enters the race of a line of `drill`.
fn enter_drill<R: Threads + Sync>(
    rt: &R,
    alloc: Global,
    line: &Line,
    theory: Theory,
    goal: u32,
    env: &Env,
) -> Result<Entry, NoMemory>
    requires goal { goal < length theory.goals }
    requires env { IsEnvOf theory goal env.now }
    requires fits { IsTrue (goal_fits theory goal) }
    requires contest { IsContest (drill_contest line.now) }
    ensures { IfOk result (IsDrillEntry line.now theory goal) }
{
    let contest = drill_contest_of(alloc, line)?;
    let Ready { visible, plan } = plan_race(rt, alloc, &theory, goal, env, &contest)?;
    let Plan { orders, chosen } = plan;
    Ok(Entry {
        trial: Trial {
            theory,
            goal,
            contest,
            telling: Telling::Drill(line.number, chosen),
        },
        visible,
        orders,
    })
}

/// Prepares what a line of `prove` asks for.
fn prepare_prove<H: Shelf, R: Threads + Sync>(
    rt: &R,
    alloc: Global,
    words: &[String],
    line: &Line,
    shelf: &mut H,
    text: &mut Bytes,
) -> Result<Prepared, NoMemory>
    requires line { IsLine (map string_bytes words.now) line.now }
    requires command { line.now.command ≡ Command.Prove }
    requires text { text.old ≡ [] }
    ensures { IfOk result (IsPrepared (map string_bytes words.now) (outside (H.held shelf.old) (H.sure shelf.old) (H.faults shelf.old) (H.faults shelf.new)) text.new) }
{
    let arguments = arguments(alloc, words, line)?;
    let asked = goal_line(arguments.as_slice());
    match open_goal(alloc, asked.theory, asked.goal, shelf, text)? {
        Posed::Goal(theory, goal, env) => {
            let entry = enter_prove(rt, alloc, line, theory, goal, &env)?;
            Ok(Prepared::Race(entry))
        }
        Posed::Refused(status) => Ok(Prepared::Answered(status)),
    }
}

/// Prepares the race for the goal of a generated theory.
fn prepare_generated<R: Threads + Sync>(
    rt: &R,
    alloc: Global,
    line: &Line,
    theory: Theory,
    text: &mut Bytes,
) -> Result<Prepared, NoMemory>
    requires contest { IsContest (drill_contest line.now) }
    requires text { text.old ≡ [] }
    ensures { IfOk result (IsGenerated line.now theory text.new) }
{
    match find(alloc, &theory, "g", text)? {
        Found::Goal(goal, env) => {
            let entry = enter_drill(rt, alloc, line, theory, goal, &env)?;
            Ok(Prepared::Race(entry))
        }
        Found::Refused(status) => Ok(Prepared::Answered(status)),
    }
}

/// Prepares what a line of `drill` asks for.
fn prepare_drill<R: Threads + Sync>(
    rt: &R,
    alloc: Global,
    words: &[String],
    line: &Line,
    text: &mut Bytes,
) -> Result<Prepared, NoMemory>
    requires line { IsLine (map string_bytes words.now) line.now }
    requires command { line.now.command ≡ Command.Drill }
    requires text { text.old ≡ [] }
    ensures { IfOk result (λ p. (o : Outside) → IsPrepared (map string_bytes words.now) o text.new p) }
{
    let made = make(alloc, line.number)?;
    match read_theory(alloc, made.as_slice(), text)? {
        Opened::Read(theory) => prepare_generated(rt, alloc, line, theory, text),
        Opened::Refused(status) => Ok(Prepared::Answered(status)),
    }
}

/// Prepares what a line asks for: makes a race ready, or answers.
fn prepare_line<H: Shelf, R: Threads + Sync>(
    rt: &R,
    alloc: Global,
    words: &[String],
    line: &Line,
    shelf: &mut H,
    text: &mut Bytes,
) -> Result<Prepared, NoMemory>
    requires line { IsLine (map string_bytes words.now) line.now }
    requires text { text.old ≡ [] }
    ensures { IfOk result (IsPrepared (map string_bytes words.now) (outside (H.held shelf.old) (H.sure shelf.old) (H.faults shelf.old) (H.faults shelf.new)) text.new) }
{
    match line.command {
        Command::Prove => prepare_prove(rt, alloc, words, line, shelf, text),
        Command::Drill => prepare_drill(rt, alloc, words, line, text),
        _ => {
            let status = answer_line(alloc, words, line, shelf, text)?;
            Ok(Prepared::Answered(status))
        }
    }
}

/// Prepares what words ask for: makes a race ready, or answers.
pub(crate) fn prepare<H: Shelf, R: Threads + Sync>(
    rt: &R,
    alloc: Global,
    words: &[String],
    shelf: &mut H,
    text: &mut Bytes,
) -> Result<Prepared, NoMemory>
    requires { text.old ≡ [] }
    ensures { IfOk result (IsPrepared (map string_bytes words.now) (outside (H.held shelf.old) (H.sure shelf.old) (H.faults shelf.old) (H.faults shelf.new)) text.new) }
{
    match read_words(alloc, words) {
        Ok(line) => prepare_line(rt, alloc, words, &line, shelf, text),
        Err(WordsFault::Usage) => {
            let status = put_usage(text)?;
            Ok(Prepared::Answered(status))
        }
        Err(WordsFault::NoMemory) => Err(NoMemory),
    }
}
