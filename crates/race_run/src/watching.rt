ghost use Rattle.std.specs.Prelude.{◌≡◌, true, is_some};
ghost use Rattle.std.specs.List.{list_any};
ghost use Rattle.race_run.specs.inner.Watches.{is_live, is_over};

use crossbeam_utils::Backoff;
use race_board::{Board, Name};
use race_core::{Race, SlotState};
use race_outside::{Launcher, Work};
use std::sync::{Mutex, Wait};

/// Looks at the clock again and again, until a slot has won, the limit of time has passed, or no slot waits
/// or runs. Between two looks it yields, and the lock is free.
pub fn watch<L: Launcher, W: Work, N: Name, R: Wait>(rt: &R, board: &Mutex<Board<L, W, N>>)
    requires { is_some N.terms.limit ≡ true }
{
    let backoff = Backoff::new();
    for _ in rt.forever() {
        if look(rt, board) {
            return;
        }
        backoff.snooze();
    }
}

fn look<L: Launcher, W: Work, N: Name, R: Wait>(rt: &R, board: &Mutex<Board<L, W, N>>) -> bool
    requires { is_some N.terms.limit ≡ true }
{
    let mut held = board.lock(rt);
    look_at(&mut held)
}

// Looks at the clock once, where that counts, and tells whether the watch is over.
fn look_at<L: Launcher, W: Work, N: Name>(board: &mut Board<L, W, N>) -> bool
    requires { is_some N.terms.limit ≡ true }
    ensures { result ≡ is_over board.new.race }
{
    if board.race().is_open() {
        board.expire();
    }
    is_over(board.race())
}

fn is_over(race: &Race) -> bool
    ensures { result ≡ is_over race.now }
{
    !(race.is_open() && has_live(race.slots.as_slice()))
}

fn has_live(slots: &[SlotState]) -> bool
    ensures { result ≡ list_any is_live slots.now }
{
    slots.iter().any(|state| is_live(*state))
}

fn is_live(state: SlotState) -> bool
    ensures { result ≡ is_live state }
{
    matches!(state, SlotState::Waiting | SlotState::Running)
}
