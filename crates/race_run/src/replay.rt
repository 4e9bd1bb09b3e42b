ghost use Rattle.std.specs.Prelude.{◌≡◌, ◌<◌, None, false, IfSome};
ghost use Rattle.race_run.specs.inner.Replays.{MayAnswer};

use race_core::Outcome;
use race_outside::{Work, WorkTurn};
use std::alloc::Global;
use text_kit::Bytes;

/// Takes one turn of a task. The outcome comes with the last one.
pub(crate) fn take_turn<W: Work>(job: &W, task: &mut W::Task) -> Option<Outcome<W::Proof>>
    requires key { W.task_key task.old ≡ W.key job.now }
    requires open { W.over task.old ≡ false }
    ensures more { result ≡ None → W.over task.new ≡ false }
    ensures done { IfSome result (λ o. MayAnswer (W.answers (W.key job.now) (W.task_bytes task.old)) o) }
    ensures nearer { W.turns task.new < W.turns task.old }
    ensures same_key { W.task_key task.new ≡ W.task_key task.old }
    ensures same_bytes { W.task_bytes task.new ≡ W.task_bytes task.old }
{
    match job.turn(task) {
        WorkTurn::More => None,
        WorkTurn::Done(outcome) => Some(outcome),
    }
}

/// Does the whole work on these bytes.
pub(crate) fn replay<W: Work>(alloc: Global, job: &W, bytes: &Bytes) -> Outcome<W::Proof>
    ensures { MayAnswer (W.answers (W.key job.now) bytes.now) result }
{
    let Ok(mut task) = job.begin(alloc, bytes) else {
        return Outcome::NoMemory;
    };
    loop {
        if let Some(outcome) = take_turn(job, &mut task) {
            return outcome;
        }
    }
}
