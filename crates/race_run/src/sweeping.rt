ghost use Rattle.std.specs.Prelude.{◌≡◌, ◌≢◌, ◌<◌, ℕ, Some, true, All, length, slice_get, is_some};
ghost use Rattle.race_core.specs.Steps.{is_open};
ghost use Rattle.race_core.specs.declared.slot.SlotState.TheVariants.{Waiting};
ghost use Rattle.race_board.specs.Boards.{up_of, is_settled};
ghost use Rattle.race_run.specs.Losses.{AreUnlost};
ghost use Rattle.race_run.specs.inner.Sweeping.{IsSettledAt, SettlesOne};

use crate::reading::drain;
use crate::settling::settle_reaped;
use race_board::{Board, Launched, Name};
use race_core::SlotState;
use race_outside::{Launcher, Work};
use std::alloc::Global;
use std::sync::ledger::Share;

/// Runs what still waits on the caller's thread, or skips it after a win or in a late race, and settles
/// each slot whose child was waited for.
///
/// It loses no pipe. Where there is a limit of time it looks at the clock before each launch.
pub fn sweep<L: Launcher, W: Work, N: Name>(
    alloc: Global,
    board: Board<L, W, N>,
    job: &W,
    share: &mut Share<N>,
) -> Board<L, W, N>
    requires key { W.key job.now ≡ N.terms.key }
    requires whole { share.old.parts ≡ N.parts }
    requires part { 0 < N.parts }
    requires amount { share.old.amount ≡ 0 }
    ensures settled { All (λ s. is_settled s ≡ true) result.race.slots }
    ensures unlost { AreUnlost board.ends → AreUnlost result.ends }
    ensures parts { share.new.parts ≡ N.parts }
    ensures amount { share.new.amount ≡ 0 }
{
    let mut board = board;
    board.count(share);
    let slots = board.race().slots.len() as u32;
    for slot in 0..slots {
        sweep_slot(alloc, &mut board, job, slot, share);
    }
    board
}

// Brings one slot to its end.
fn sweep_slot<L: Launcher, W: Work, N: Name>(
    alloc: Global,
    board: &mut Board<L, W, N>,
    job: &W,
    slot: u32,
    share: &mut Share<N>,
)
    requires key { W.key job.now ≡ N.terms.key }
    requires slot { slot < length board.old.race.slots }
    requires none { up_of board.old.race.slots ≡ 0 }
    requires part { 0 < share.old.parts }
    ensures settled { IsSettledAt (slice_get board.new.race.slots slot) }
    ensures others { (k : ℕ) → k ≢ slot → slice_get board.new.race.slots k ≡ slice_get board.old.race.slots k }
    ensures same { length board.new.race.slots ≡ length board.old.race.slots }
    ensures none { up_of board.new.race.slots ≡ 0 }
    ensures unlost { AreUnlost board.old.ends → AreUnlost board.new.ends }
    ensures parts { share.new.parts ≡ share.old.parts }
    ensures amount { share.new.amount ≡ share.old.amount }
{
    match *board.race().slots.at(slot as usize) {
        SlotState::Waiting => sweep_waiting(alloc, board, job, slot, share),
        SlotState::Reaped | SlotState::ReapedLate => settle_reaped(alloc, board, job, slot),
        SlotState::Running | SlotState::Overdue => unreachable!(),
        SlotState::Settled(_) => {}
    }
}

// Starts a waiting slot and brings it to its end, or skips it.
fn sweep_waiting<L: Launcher, W: Work, N: Name>(
    alloc: Global,
    board: &mut Board<L, W, N>,
    job: &W,
    slot: u32,
    share: &mut Share<N>,
)
    requires key { W.key job.now ≡ N.terms.key }
    requires waiting { slice_get board.old.race.slots slot ≡ Some Waiting }
    requires none { up_of board.old.race.slots ≡ 0 }
    requires part { 0 < share.old.parts }
    ensures slots { SettlesOne slot board.old.race.slots board.new.race.slots }
    ensures unlost { AreUnlost board.old.ends → AreUnlost board.new.ends }
    ensures parts { share.new.parts ≡ share.old.parts }
    ensures amount { share.new.amount ≡ share.old.amount }
{
    pass_time(board);
    if board.race().is_open() {
        run_slot(alloc, board, job, slot, share);
    } else {
        board.skip(slot);
    }
}

// Looks at the clock, where there is a limit of time that hasn't passed and no slot has won.
fn pass_time<L: Launcher, W: Work, N: Name>(board: &mut Board<L, W, N>)
    requires none { up_of board.old.race.slots ≡ 0 }
    ensures slots { board.new.race.slots ≡ board.old.race.slots }
    ensures ends { board.new.ends ≡ board.old.ends }
{
    let race = board.race();
    if race.until.is_some() && race.is_open() {
        board.expire();
    }
}

// Starts the child of a slot, reads what it prints, waits for it, and settles the slot.
fn run_slot<L: Launcher, W: Work, N: Name>(
    alloc: Global,
    board: &mut Board<L, W, N>,
    job: &W,
    slot: u32,
    share: &mut Share<N>,
)
    requires key { W.key job.now ≡ N.terms.key }
    requires waiting { slice_get board.old.race.slots slot ≡ Some Waiting }
    requires open { is_open board.old.race ≡ true }
    requires part { 0 < share.old.parts }
    ensures slots { SettlesOne slot board.old.race.slots board.new.race.slots }
    ensures unlost { AreUnlost board.old.ends → AreUnlost board.new.ends }
    ensures parts { share.new.parts ≡ share.old.parts }
    ensures amount { share.new.amount ≡ share.old.amount }
{
    match board.launch(slot, share) {
        Launched::Up(pipe) => {
            let drained = drain(alloc, pipe);
            board.reap(slot, drained, share);
            settle_reaped(alloc, board, job, slot);
        }
        Launched::NoStart | Launched::NoRoom => {}
    }
}
