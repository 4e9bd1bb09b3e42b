ghost use Rattle.std.specs.Prelude.{◌≡◌, ◌<◌, [], IfOk, IfErr, None, Some, length, map, string_bytes};
ghost use Rattle.sledge_engine.specs.Reports.{race_status};
ghost use Rattle.sledge_engine.specs.Runs.{RunAnswered};
ghost use Rattle.sledge_engine.specs.inner.Fetches.{outside};
ghost use Rattle.sledge_engine.specs.inner.Races.{finished_of, launching};
ghost use Rattle.sledge_engine.specs.inner.Sinking.{IsPut, told_by};
ghost use Rattle.sledge_engine.specs.inner.Trials.{IsEntry, IsRaceTold, IsRaced, IsReport, report as report_of};

use crate::finished::{Done, Finished};
use crate::preparing::prepare;
use crate::reports::{put_drill_report, put_prove_report};
use crate::top::put_text;
use crate::trial::{Entry, Prepared, Telling, Trial};
use hol_kernel::Proven;
use race_core::Order;
use race_outside::{Launcher, Shelf, Sink};
use race_run::{Raced, run_race};
use slot_work::{Job, key_tells};
use std::alloc::Global;
use std::sync::Wait;
use std::thread::Threads;
use text_kit::{Bytes, NoMemory, Rows};

/// Puts the report of a race, and gives its status.
fn put_report(
    alloc: Global,
    trial: &Trial,
    finished: &Finished,
    text: &mut Bytes,
) -> Result<u8, NoMemory>
    requires goal { trial.now.goal < length trial.now.theory.goals }
    requires text { text.old ≡ [] }
    ensures { IfOk result (λ status. (status ≡ race_status finished.now) × (text.new ≡ report_of trial.now finished.now)) }
{
    match &trial.telling {
        Telling::Prove(shows) => {
            put_prove_report(alloc, &trial.theory, trial.goal, *shows, finished, text)
        }
        Telling::Drill(facts, chosen) => put_drill_report(
            alloc,
            &trial.theory,
            trial.goal,
            *facts,
            chosen.as_slice(),
            finished,
            text,
        ),
    }
}

/// Tells of a finished race, and gives the exit status.
fn tell<S: Sink>(alloc: Global, trial: &Trial, finished: &Finished, out: &mut S) -> u8
    requires { trial.now.goal < length trial.now.theory.goals }
    ensures { IsReport trial.now finished.now (told_by (S.taken out.old) (S.taken out.new) (S.faults out.old) (S.faults out.new)) result }
{
    let mut text = Bytes::begin(alloc);
    match put_report(alloc, trial, finished, &mut text) {
        Ok(status) => put_text(out, text.as_slice(), status),
        Err(_) => put_text(out, b"fault: memory\n", 6),
    }
}

/// Runs a race for a goal.
fn race_for<L: Launcher, R: Threads + Wait + Sync>(
    rt: &R,
    alloc: Global,
    launcher: L,
    trial: &Trial,
    visible: Rows<u32>,
    orders: Rows<Order>,
) -> Result<Raced<L, Proven>, L>
    requires { IsEntry (record { trial = trial.now; visible = visible; orders = orders }) }
    ensures raced { IfOk result (λ done. IsRaced trial.now (launching (L.children launcher) (L.standing launcher) (L.standing done.launcher)) (finished_of done.events done.slots done.winner done.until)) }
    ensures children { IfOk result (λ done. L.children done.launcher ≡ L.children launcher) }
    ensures back { IfErr result (λ back. back ≡ launcher) }
{
    let contest = &trial.contest;
    key_tells(&trial.theory, trial.goal, contest.budget);
    match Job::begin(alloc, &trial.theory, trial.goal, visible, contest.budget) {
        Ok(job) => run_race(
            rt,
            alloc,
            launcher,
            orders,
            contest.limit,
            &job,
            contest.workers,
        ),
        Err(_) => Err(launcher),
    }
}

/// Tells of a race that was run, and gives back what it leaves.
fn finish<S: Sink, L: Launcher>(
    alloc: Global,
    trial: &Trial,
    raced: Raced<L, Proven>,
    out: &mut S,
) -> Done<L>
    requires { trial.now.goal < length trial.now.theory.goals }
    ensures race { result.race ≡ Some (finished_of raced.events raced.slots raced.winner raced.until) }
    ensures launcher { result.launcher ≡ raced.launcher }
    ensures told { IsReport trial.now (finished_of raced.events raced.slots raced.winner raced.until) (told_by (S.taken out.old) (S.taken out.new) (S.faults out.old) (S.faults out.new)) result.status }
{
    let Raced {
        launcher,
        events,
        slots,
        winner,
        until,
    } = raced;
    let finished = Finished {
        events,
        slots,
        winner,
        until,
    };
    let status = tell(alloc, trial, &finished, out);
    Done {
        status,
        launcher,
        race: Some(finished),
    }
}

/// Tells a status and a text where no race was run.
fn tell_no_race<S: Sink, L: Launcher>(launcher: L, text: &[u8], status: u8, out: &mut S) -> Done<L>
    ensures race { result.race ≡ None }
    ensures launcher { result.launcher ≡ launcher }
    ensures told { IsPut (told_by (S.taken out.old) (S.taken out.new) (S.faults out.old) (S.faults out.new)) text.now status result.status }
{
    let status = put_text(out, text, status);
    Done {
        status,
        launcher,
        race: None,
    }
}

/// Runs a race for a goal, tells of it, and gives the exit status.
fn run_entry<S: Sink, L: Launcher, R: Threads + Wait + Sync>(
    rt: &R,
    alloc: Global,
    launcher: L,
    entry: Entry,
    out: &mut S,
) -> Done<L>
    requires entry { IsEntry entry }
    ensures told { IsRaceTold entry.trial (launching (L.children launcher) (L.standing launcher) (L.standing result.launcher)) (told_by (S.taken out.old) (S.taken out.new) (S.faults out.old) (S.faults out.new)) result.race result.status }
    ensures children { L.children result.launcher ≡ L.children launcher }
    ensures untouched { result.race ≡ None → result.launcher ≡ launcher }
{
    let Entry {
        trial,
        visible,
        orders,
    } = entry;
    match race_for(rt, alloc, launcher, &trial, visible, orders) {
        Ok(raced) => finish(alloc, &trial, raced, out),
        Err(launcher) => tell_no_race(launcher, b"fault: memory\n", 6, out),
    }
}

/// Answers the words of a command, runs the race that `prove` or `drill` asks for, and gives the exit status.
///
/// `prove THEORY GOAL` and `drill N` start a child for each slice of facts, at most as many at once as there are workers,
/// replay what each used, and report the first proof that the kernel has accepted. The other commands are answered as by
/// `answer`. Files are fetched from the shelf, children are started by the launcher, which is given back, and the text is put
/// into the sink, whole before its first byte. Nothing is said of time, or of whether slots run at once.
pub fn run<H: Shelf, S: Sink, L: Launcher, R: Threads + Wait + Sync>(
    rt: &R,
    alloc: Global,
    words: &[String],
    shelf: &mut H,
    launcher: L,
    out: &mut S,
) -> Done<L>
    // Each status has its cause, a race that was finished has the headline, and the sink took the text that goes with it.
    ensures answered { RunAnswered (map string_bytes words.now) (outside (H.held shelf.old) (H.sure shelf.old) (H.faults shelf.old) (H.faults shelf.new)) (launching (L.children launcher) (L.standing launcher) (L.standing result.launcher)) (told_by (S.taken out.old) (S.taken out.new) (S.faults out.old) (S.faults out.new)) result.race result.status }
    ensures children { L.children result.launcher ≡ L.children launcher }
    // Where no race was finished the launcher did nothing.
    ensures untouched { result.race ≡ None → result.launcher ≡ launcher }
{
    let mut text = Bytes::begin(alloc);
    match prepare(rt, alloc, words, shelf, &mut text) {
        Ok(Prepared::Race(entry)) => run_entry(rt, alloc, launcher, entry, out),
        Ok(Prepared::Answered(status)) => tell_no_race(launcher, text.as_slice(), status, out),
        Err(_) => tell_no_race(launcher, b"fault: memory\n", 6, out),
    }
}
