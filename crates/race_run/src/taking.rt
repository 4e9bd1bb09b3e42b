ghost use Rattle.std.specs.Prelude.{◌≡◌, ◌≤◌, ◌<◌, Some, None, true, IfSome, length, slice_get};
ghost use Rattle.race_core.specs.Steps.{is_open};
ghost use Rattle.race_core.specs.declared.slot.SlotState.TheVariants.{Waiting};
ghost use Rattle.race_run.specs.inner.Working.{Takes, Carries, AllTaken};

use crate::taken::Taken;
use race_board::{Board, Launched, Name};
use race_core::{Race, SlotState};
use race_outside::{Launcher, Work};
use std::sync::ledger::Share;

/// Starts the child of the first slot that waits. One taking of the lock is one call of this.
pub(crate) fn take_from<L: Launcher, W: Work, N: Name>(
    board: &mut Board<L, W, N>,
    share: &mut Share<N>,
) -> Taken<L::Pipe>
    requires part { 0 < share.old.parts }
    ensures parts { share.new.parts ≡ share.old.parts }
    ensures share { Takes share.old.amount share.new.amount result }
    ensures pipe { Carries L.Pipe.number L.Pipe.told L.Pipe.left N.terms result }
    ensures nothing { result ≡ Taken.Nothing → AllTaken board.new.race }
{
    let Some(slot) = waiting(board.race()) else {
        return Taken::Nothing;
    };
    match board.launch(slot, share) {
        Launched::Up(pipe) => Taken::Up(slot, pipe),
        Launched::NoStart => Taken::Refused,
        Launched::NoRoom => Taken::Refused,
    }
}

// The first slot that waits, where slots may still be started.
fn waiting(race: &Race) -> Option<u32>
    requires { length race.now.slots ≤ 64 }
    ensures slot { IfSome result (λ k. slice_get race.now.slots k ≡ Some Waiting) }
    ensures open { IfSome result (λ k. is_open race.now ≡ true) }
    ensures none { result ≡ None → AllTaken race.now }
{
    if !race.is_open() {
        return None;
    }
    for slot in 0..race.slots.len() as u32 {
        if let Some(SlotState::Waiting) = race.state(slot) {
            return Some(slot);
        }
    }
    None
}
