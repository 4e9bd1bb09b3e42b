ghost use Rattle.std.specs.Prelude.{◌≡◌, ◌<◌, ◌+◌, false, IfSome, MatchOption};
ghost use Rattle.race_board.specs.Ends.{MayEnd, IsOfRace};
ghost use Rattle.race_board.specs.Calls.{kept_of};
ghost use Rattle.race_run.specs.inner.Replays.{MayAnswer};
ghost use Rattle.race_run.specs.inner.Working.{Takes, Carries};

use crate::ending::early_end;
use crate::giving::give_to;
use crate::judged::Judged;
use crate::reading::drain;
use crate::replay::take_turn;
use crate::taken::Taken;
use crate::taking::take_from;
use race_board::{Board, DrainEnd, Drained, Name};
use race_core::Outcome;
use race_outside::{Launcher, Work};
use std::alloc::Global;
use std::sync::atomic::{AtomicBool, Ordering};
use std::sync::ledger::Share;
use std::sync::{Mutex, Wait};
use text_kit::Bytes;

/// A worker takes so many slots at most; a race has no more.
const MOST_SLOTS: u32 = 64;

/// One worker: it takes waiting slots until none is left, and brings each to its end. The lock is free while
/// it reads a pipe or replays.
///
/// Where it doesn't find its slot running under its pipe's id it hands the drained pipe back and ends. That
/// comes exactly where its share is 1 greater than before. The hint tells that the race may be over: a worker
/// that sees it looks at the race under the lock, and nothing else is decided by it.
pub fn work<L: Launcher, W: Work, N: Name, R: Wait>(
    rt: &R,
    alloc: Global,
    board: &Mutex<Board<L, W, N>>,
    job: &W,
    hint: &AtomicBool,
    share: &mut Share<N>,
) -> Option<Drained<L::Pipe>>
    requires key { W.key job.now ≡ N.terms.key }
    requires part { 0 < share.old.parts }
    ensures parts { share.new.parts ≡ share.old.parts }
    ensures share { MatchOption result (share.new.amount ≡ share.old.amount) (λ back. share.new.amount ≡ share.old.amount + 1) }
    ensures told { IfSome result (λ back. L.Pipe.told back.pipe ≡ N.terms.children (L.Pipe.number back.pipe)) }
    ensures range { IfSome result (λ back. IsOfRace N.terms (L.Pipe.number back.pipe)) }
{
    for _turn in 0..MOST_SLOTS {
        match take(rt, board, share) {
            Taken::Up(slot, pipe) => {
                let drained = drain(alloc, pipe);
                let outcome = end_of(rt, alloc, board, job, hint, &drained);
                let judged = Judged {
                    slot,
                    drained,
                    outcome,
                };
                let back = give(rt, alloc, board, job, hint, judged, share);
                if back.is_some() {
                    return back;
                }
            }
            Taken::Refused => {}
            Taken::Nothing => return None,
        }
    }
    None
}

fn take<L: Launcher, W: Work, N: Name, R: Wait>(
    rt: &R,
    board: &Mutex<Board<L, W, N>>,
    share: &mut Share<N>,
) -> Taken<L::Pipe>
    requires part { 0 < share.old.parts }
    ensures parts { share.new.parts ≡ share.old.parts }
    ensures share { Takes share.old.amount share.new.amount result }
    ensures pipe { Carries L.Pipe.number L.Pipe.told L.Pipe.left N.terms result }
{
    let mut held = board.lock(rt);
    take_from(&mut held, share)
}

// The end that is called for by what was read; none where the race was seen to be over first.
fn end_of<L: Launcher, W: Work, N: Name, R: Wait>(
    rt: &R,
    alloc: Global,
    board: &Mutex<Board<L, W, N>>,
    job: &W,
    hint: &AtomicBool,
    drained: &Drained<L::Pipe>,
) -> Option<Outcome<W::Proof>>
    ensures { IfSome result (λ o. MayEnd (W.answers (W.key job.now)) false false (kept_of drained.now) o) }
{
    let short = drained.end == DrainEnd::NoMemory;
    let early = early_end(None, drained.pipe_faults, short, drained.bytes.len());
    match early {
        Some(outcome) => Some(outcome),
        None => replay_until_over(rt, alloc, board, job, hint, &drained.bytes),
    }
}

// Does the work on these bytes, until it is done or the race is seen to be over.
fn replay_until_over<L: Launcher, W: Work, N: Name, R: Wait>(
    rt: &R,
    alloc: Global,
    board: &Mutex<Board<L, W, N>>,
    job: &W,
    hint: &AtomicBool,
    bytes: &Bytes,
) -> Option<Outcome<W::Proof>>
    ensures { IfSome result (λ o. MayAnswer (W.answers (W.key job.now) bytes.now) o) }
{
    let Ok(mut task) = job.begin(alloc, bytes) else {
        return Some(Outcome::NoMemory);
    };
    loop {
        if hint.load(Ordering::SeqCst) && is_over(rt, board) {
            return None;
        }
        if let Some(outcome) = take_turn(job, &mut task) {
            return Some(outcome);
        }
    }
}

// Whether a slot has won, or the limit of time has passed.
fn is_over<L: Launcher, W: Work, N: Name, R: Wait>(rt: &R, board: &Mutex<Board<L, W, N>>) -> bool {
    !board.lock(rt).race().is_open()
}

fn give<L: Launcher, W: Work, N: Name, R: Wait>(
    rt: &R,
    alloc: Global,
    board: &Mutex<Board<L, W, N>>,
    job: &W,
    hint: &AtomicBool,
    judged: Judged<L::Pipe, W::Proof>,
    share: &mut Share<N>,
) -> Option<Drained<L::Pipe>>
    requires key { W.key job.now ≡ N.terms.key }
    requires told { L.Pipe.told judged.drained.pipe ≡ N.terms.children (L.Pipe.number judged.drained.pipe) }
    requires right { IfSome judged.outcome (λ o. MayEnd (W.answers N.terms.key) false false (kept_of judged.drained) o) }
    requires amount { 0 < share.old.amount }
    ensures parts { share.new.parts ≡ share.old.parts }
    ensures share { MatchOption result (share.new.amount + 1 ≡ share.old.amount) (λ back. share.new.amount ≡ share.old.amount) }
    ensures back { IfSome result (λ back. back ≡ judged.drained) }
{
    let mut held = board.lock(rt);
    let back = give_to(alloc, &mut held, job, judged, share);
    if !held.race().is_open() {
        hint.store(true, Ordering::SeqCst);
    }
    back
}
