ghost use Rattle.std.specs.Prelude.{◌≡◌, ◌==◌, nat_lt, false};
ghost use Rattle.race_board.specs.Drains.{most_bytes};
ghost use Rattle.race_board.specs.Ends.{MayEnd};
ghost use Rattle.race_run.specs.inner.Replays.{early_end};

use crate::reading::MOST;
use crate::replay::replay;
use race_core::{Kept, Outcome};
use race_outside::Work;
use std::alloc::Global;

/// The end that is called for with no look at the bytes of a child: by the stray pipe, by the faults of
/// its own, whether the reading ended for want of memory, and how much was read.
pub(crate) fn early_end<P>(
    stray: Option<u64>,
    pipe_faults: u64,
    short: bool,
    length: usize,
) -> Option<Outcome<P>>
    ensures { result ≡ early_end stray (nat_lt 0 pipe_faults) short (length == most_bytes) }
{
    if let Some(stray) = stray {
        return Some(Outcome::Lost { stray });
    }
    if pipe_faults > 0 {
        return Some(Outcome::ReadFault);
    }
    if short {
        return Some(Outcome::NoMemory);
    }
    if length == MOST {
        return Some(Outcome::TooLong);
    }
    None
}

/// The end that is called for by what a slot keeps of its child, which was waited for in time.
pub(crate) fn called_for<W: Work>(alloc: Global, job: &W, kept: &Kept) -> Outcome<W::Proof>
    ensures { MayEnd (W.answers (W.key job.now)) false false kept.now result }
{
    let early = early_end(kept.stray, kept.pipe_faults, kept.short, kept.bytes.len());
    match early {
        Some(outcome) => outcome,
        None => replay(alloc, job, &kept.bytes),
    }
}
