ghost use Rattle.std.specs.Prelude.{◌≡◌, ◌<◌, None, vec_len};
ghost use Rattle.race_board.specs.Ends.{only_stray, skipped_end};
ghost use Rattle.race_board.specs.Boards.{is_kept};
ghost use Rattle.race_board.specs.Calls.{changed, with_outcome, with_kept, is_short};

use crate::DrainEnd;
use race_core::{Kept, Outcome, SlotEnd, SlotState};
use std::alloc::Global;
use text_kit::Bytes;

/// Puts down how a slot ended.
pub(crate) fn end_at<P: Drop>(ends: &mut Vec<SlotEnd<P>>, slot: u32, outcome: Outcome<P>)
    requires { slot < vec_len ends.old }
    ensures { ends.new.items ≡ changed (with_outcome outcome) slot ends.old.items }
{
    ends[slot as usize].outcome = outcome;
}

/// Puts down what a slot keeps.
pub(crate) fn keep_at<P: Drop>(ends: &mut Vec<SlotEnd<P>>, slot: u32, kept: Kept)
    requires { slot < vec_len ends.old }
    ensures { ends.new.items ≡ changed (with_kept kept) slot ends.old.items }
{
    ends[slot as usize].kept = kept;
}

/// How a slot ends that isn't started any more: behind a win, or since the limit of time has passed.
pub(crate) fn skipped_end<P>(won: bool) -> Outcome<P>
    ensures { result ≡ skipped_end won }
{
    if won {
        Outcome::Cancelled
    } else {
        Outcome::TimedOut
    }
}

/// What is kept of a slot's own pipe.
pub(crate) fn own_kept(bytes: Bytes, pipe_faults: u64, end: DrainEnd) -> Kept
    ensures { result ≡ record { bytes = bytes; pipe_faults = pipe_faults; short = is_short end; stray = None } }
{
    let short = match end {
        DrainEnd::NoMemory => true,
        _ => false,
    };
    Kept {
        bytes,
        pipe_faults,
        short,
        stray: None,
    }
}

/// Nothing but the id of a stray pipe. It takes no memory.
pub(crate) fn stray_kept(alloc: Global, id: u64) -> Kept
    ensures { result ≡ only_stray id }
{
    Kept {
        bytes: Bytes::begin(alloc),
        pipe_faults: 0,
        short: false,
        stray: Some(id),
    }
}

/// Whether a slot keeps what was read of its child, or that there was none.
pub(crate) fn is_kept(state: SlotState) -> bool
    ensures { result ≡ is_kept state }
{
    match state {
        SlotState::Waiting | SlotState::Running | SlotState::Overdue => false,
        _ => true,
    }
}
