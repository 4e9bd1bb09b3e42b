ghost use Rattle.std.specs.Prelude.{◌≡◌, slice_get, is_some};
ghost use Rattle.race_board.specs.Calls.{MaySettle};
ghost use Rattle.race_run.specs.Losses.{AreUnlost};
ghost use Rattle.race_run.specs.inner.Sweeping.{IsReapedAt, SettlesOne};

use crate::ending::called_for;
use race_board::{Board, Name};
use race_core::{Outcome, SlotState};
use race_outside::{Launcher, Work};
use std::alloc::Global;

/// Settles a slot whose child was waited for: as what it keeps calls for, or since the limit of time had
/// passed before, or since another slot has won.
pub(crate) fn settle_reaped<L: Launcher, W: Work, N: Name>(
    alloc: Global,
    board: &mut Board<L, W, N>,
    job: &W,
    slot: u32,
)
    requires reaped { IsReapedAt (slice_get board.old.race.slots slot) }
    requires key { W.key job.now ≡ N.terms.key }
    ensures slots { SettlesOne slot board.old.race.slots board.new.race.slots }
    ensures unlost { AreUnlost board.old.ends → AreUnlost board.new.ends }
{
    let outcome = reaped_end(alloc, board, job, slot);
    board.settle(slot, outcome);
}

// How a slot ends whose child was waited for.
fn reaped_end<L: Launcher, W: Work, N: Name>(
    alloc: Global,
    board: &Board<L, W, N>,
    job: &W,
    slot: u32,
) -> Outcome<W::Proof>
    requires reaped { IsReapedAt (slice_get board.now.race.slots slot) }
    requires key { W.key job.now ≡ N.terms.key }
    ensures { MaySettle (W.answers N.terms.key) (is_some board.now.race.winner) (slice_get board.now.race.slots slot) (slice_get board.now.ends slot) result }
{
    let race = board.race();
    if race.winner.is_some() {
        return Outcome::Cancelled;
    }
    match (race.state(slot), board.kept(slot)) {
        (Some(SlotState::Reaped), Some(kept)) => called_for(alloc, job, kept),
        _ => Outcome::TimedOut,
    }
}
