ghost use Rattle.std.specs.Prelude.{◌≡◌, ◌<◌, ◌+◌, false, None, Option, IfSome, MatchOption, slice_get};
ghost use Rattle.race_board.specs.Ends.{MayEnd};
ghost use Rattle.race_board.specs.Calls.{kept_of};
ghost use Rattle.race_run.specs.inner.Sweeping.{IsReapedAt, SettlesOne};

use crate::judged::Judged;
use crate::owned::is_own;
use crate::settling::settle_reaped;
use race_board::{Board, Drained, Name};
use race_core::{Outcome, SlotState};
use race_outside::{Launcher, Pipe, Work};
use std::alloc::Global;
use std::sync::ledger::Share;

/// Waits for the child of a slot with its own pipe, and settles the slot, or hands the pipe back where the
/// slot doesn't run under its id. One taking of the lock is one call of this.
pub(crate) fn give_to<L: Launcher, W: Work, N: Name>(
    alloc: Global,
    board: &mut Board<L, W, N>,
    job: &W,
    judged: Judged<L::Pipe, W::Proof>,
    share: &mut Share<N>,
) -> Option<Drained<L::Pipe>>
    requires key { W.key job.now ≡ N.terms.key }
    requires told { L.Pipe.told judged.drained.pipe ≡ N.terms.children (L.Pipe.number judged.drained.pipe) }
    requires right { IfSome judged.outcome (λ o. MayEnd (W.answers N.terms.key) false false (kept_of judged.drained) o) }
    requires amount { 0 < share.old.amount }
    ensures parts { share.new.parts ≡ share.old.parts }
    ensures share { MatchOption result (share.new.amount + 1 ≡ share.old.amount) (λ back. share.new.amount ≡ share.old.amount) }
    ensures back { IfSome result (λ back. back ≡ judged.drained) }
    ensures settled { result ≡ None → SettlesOne judged.slot board.old.race.slots board.new.race.slots }
    ensures same { IfSome result (λ back. board.new ≡ board.old) }
{
    let Judged {
        slot,
        drained,
        outcome,
    } = judged;
    if !is_own(board, slot, drained.pipe.id()) {
        return Some(drained);
    }
    board.reap(slot, drained, share);
    settle_as(alloc, board, job, slot, outcome);
    None
}

// Settles a slot that was reaped: one that was overdue is timed out, whatever its worker found. One with no
// outcome, whose worker saw that the race was over, is cancelled then.
fn settle_as<L: Launcher, W: Work, N: Name>(
    alloc: Global,
    board: &mut Board<L, W, N>,
    job: &W,
    slot: u32,
    outcome: Option<Outcome<W::Proof>>,
)
    requires key { W.key job.now ≡ N.terms.key }
    requires reaped { IsReapedAt (slice_get board.old.race.slots slot) }
    requires right { IfSome (slice_get board.old.ends slot) (λ end. IfSome outcome (λ o. MayEnd (W.answers N.terms.key) false false end.kept o)) }
    ensures slots { SettlesOne slot board.old.race.slots board.new.race.slots }
{
    match *board.race().slots.at(slot as usize) {
        SlotState::Reaped => match outcome {
            Some(outcome) => board.settle(slot, outcome),
            None => settle_reaped(alloc, board, job, slot),
        },
        _ => board.settle(slot, Outcome::TimedOut),
    }
}
