ghost use Rattle.std.specs.Prelude.{◌≡◌, ℕ, Some, None, true, false, IfSome, slice_get};
ghost use Rattle.race_core.specs.Histories.{id_of};
ghost use Rattle.race_board.specs.Calls.{IsUp};
ghost use Rattle.race_board.specs.Ends.{IsFree};

use race_board::{Board, Name};
use race_core::SlotState;
use race_outside::{Launcher, Work};

/// Whether the slot has a child of this id that wasn't waited for.
pub(crate) fn is_own<L: Launcher, W: Work, N: Name>(
    board: &Board<L, W, N>,
    slot: u32,
    id: u64,
) -> bool
    ensures up { result ≡ true → IsUp (slice_get board.now.race.slots slot) }
    ensures own { result ≡ true → id_of N.terms.first.starts board.now.events slot ≡ Some id }
    ensures free { result ≡ false → IsUp (slice_get board.now.race.slots slot) → id_of N.terms.first.starts board.now.events slot ≡ Some id → ⊥ }
{
    match board.race().state(slot) {
        Some(SlotState::Running | SlotState::Overdue) => board.id_of(slot) == Some(id),
        _ => false,
    }
}

/// The slot that has a child of this id that wasn't waited for.
pub(crate) fn owner<L: Launcher, W: Work, N: Name>(board: &Board<L, W, N>, id: u64) -> Option<u32>
    ensures up { IfSome result (λ slot. IsUp (slice_get board.now.race.slots slot)) }
    ensures own { IfSome result (λ slot. id_of N.terms.first.starts board.now.events slot ≡ Some id) }
    ensures free { result ≡ None → IsFree N.terms.first.starts board.now.events board.now.race id }
{
    for slot in 0..board.race().slots.len() as u32 {
        if is_own(board, slot, id) {
            return Some(slot);
        }
    }
    None
}
