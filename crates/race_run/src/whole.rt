ghost use Rattle.std.specs.Prelude.{◌≡◌, ◌≤◌, ◌<◌, ℕ, None, false, map, length, is_some, IfOk, IfErr, IfSome};
ghost use Rattle.race_core.specs.Histories.{PassedOnce, first_proved};
ghost use Rattle.race_core.specs.Ran.{Ran};
ghost use Rattle.race_board.specs.Ends.{AreRight};
ghost use Rattle.race_run.specs.Losses.{AreUnlost, IsAlone};
ghost use Rattle.race_run.specs.Races.{IsSchedule};

use crate::joining::race;
use crate::raced::Raced;
use crate::sweeping::sweep;
use race_board::{Board, Name};
use race_core::Order;
use race_outside::{Launcher, Work};
use std::alloc::Global;
use std::marker::Brand;
use std::sync::Wait;
use std::sync::ledger::{Blank, Share};
use std::thread::Threads;
use text_kit::Rows;

/// The parts of a race's ledger: one for each of 16 workers, and one for the caller.
const PARTS: u64 = 17;

/// Runs a race from its beginning to its end: so many workers over a slot for each order, or the caller's
/// thread alone where there is one worker and no limit of time, in milliseconds.
///
/// `Err` is want of memory before the first start, and hands the launcher back. Want of memory behind that
/// is the outcome of the slot that met it. Each event of the history is one call of a board under its lock,
/// in which the launcher did what the event says; nothing is said of whether slots run at once.
pub fn run_race<L: Launcher, W: Work, R: Threads + Wait + Sync>(
    rt: &R,
    alloc: Global,
    launcher: L,
    orders: Rows<Order>,
    limit: Option<u64>,
    job: &W,
    workers: u32,
) -> Result<Raced<L, W::Proof>, L>
    requires few { (0 < length orders) × (length orders ≤ 64) }
    requires short { IfSome limit (λ milliseconds. milliseconds ≤ 600000) }
    requires workers { (0 < workers) × (workers ≤ 16) }
    ensures schedule { IfOk result (λ done. IsSchedule (length orders) done.until done.events done.slots done.winner) }
    ensures passed { IfOk result (λ done. (k : ℕ) → k < length orders → PassedOnce done.events k) }
    ensures first { IfOk result (λ done. done.winner ≡ first_proved done.events) }
    ensures ran { IfOk result (λ done. Ran (L.standing launcher) (L.standing done.launcher) orders limit done.until done.events) }
    ensures orders { IfOk result (λ done. map (λ end. end.order) done.slots ≡ orders) }
    ensures right { IfOk result (λ done. AreRight (W.answers (W.key job.now)) (record { key = W.key job.now; orders = orders; limit = limit; children = L.children launcher; first = L.standing launcher }) done.until done.slots done.events) }
    ensures unlost { IsAlone (length orders) workers limit → IfOk result (λ done. AreUnlost done.slots) }
    ensures children { IfOk result (λ done. L.children done.launcher ≡ L.children launcher) }
    ensures back { IfErr result (λ back. back ≡ launcher) }
{
    run_named::<Brand, L, W, R>(
        rt,
        alloc,
        Blank::new(PARTS),
        launcher,
        orders,
        limit,
        job,
        workers,
    )
}

// Begun, run and finished in one function, so that nothing that is given back carries the name.
fn run_named<N: Name + Send + Sync, L: Launcher, W: Work, R: Threads + Wait + Sync>(
    rt: &R,
    alloc: Global,
    blank: Blank,
    launcher: L,
    orders: Rows<Order>,
    limit: Option<u64>,
    job: &W,
    workers: u32,
) -> Result<Raced<L, W::Proof>, L>
    requires ledger { (blank.name ≡ N.name) × (blank.parts ≡ N.parts) × (N.parts ≡ 17) }
    requires key { W.key job.now ≡ N.terms.key }
    requires orders { orders ≡ N.terms.orders }
    requires few { (0 < length orders) × (length orders ≤ 64) }
    requires limit { limit ≡ N.terms.limit }
    requires short { IfSome limit (λ milliseconds. milliseconds ≤ 600000) }
    requires first { L.standing launcher ≡ N.terms.first }
    requires children { L.children launcher ≡ N.terms.children }
    requires workers { (0 < workers) × (workers ≤ 16) }
    ensures schedule { IfOk result (λ done. IsSchedule (length N.terms.orders) done.until done.events done.slots done.winner) }
    ensures passed { IfOk result (λ done. (k : ℕ) → k < length N.terms.orders → PassedOnce done.events k) }
    ensures first { IfOk result (λ done. done.winner ≡ first_proved done.events) }
    ensures ran { IfOk result (λ done. Ran N.terms.first (L.standing done.launcher) N.terms.orders N.terms.limit done.until done.events) }
    ensures orders { IfOk result (λ done. map (λ end. end.order) done.slots ≡ N.terms.orders) }
    ensures right { IfOk result (λ done. AreRight (W.answers N.terms.key) N.terms done.until done.slots done.events) }
    ensures unlost { IsAlone (length N.terms.orders) workers N.terms.limit → IfOk result (λ done. AreUnlost done.slots) }
    ensures children { IfOk result (λ done. L.children done.launcher ≡ N.terms.children) }
    ensures back { IfErr result (λ back. back ≡ launcher) }
{
    let (board, mut share) = Board::<L, W, N>::begin_timed(alloc, blank, launcher, orders, limit)?;
    let board = run_workers(rt, alloc, board, job, workers, &mut share);
    let board = sweep(alloc, board, job, &mut share);
    let until = board.race().until;
    let (launcher, events, slots, winner) = board.finish();
    Ok(Raced {
        launcher,
        events,
        slots,
        winner,
        until,
    })
}

// Runs the workers, where there are several or there is a limit of time.
fn run_workers<N: Name + Send + Sync, L: Launcher, W: Work, R: Threads + Wait + Sync>(
    rt: &R,
    alloc: Global,
    board: Board<L, W, N>,
    job: &W,
    workers: u32,
    share: &mut Share<N>,
) -> Board<L, W, N>
    requires key { W.key job.now ≡ N.terms.key }
    requires workers { (0 < workers) × (workers ≤ 16) }
    requires whole { share.old.parts ≡ N.parts }
    requires parts { workers < N.parts }
    requires amount { share.old.amount ≡ 0 }
    ensures parts { share.new.parts ≡ N.parts }
    ensures amount { share.new.amount ≡ 0 }
    ensures alone { workers ≡ 1 → N.terms.limit ≡ None → result.ends ≡ board.ends }
{
    if workers == 1 && board.race().until.is_none() {
        return board;
    }
    race(rt, alloc, board, job, workers, share)
}
