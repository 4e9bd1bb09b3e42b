ghost use Rattle.std.specs.Prelude.{◌≤◌, ◌<◌, ◌^◌, All, IfSome};

use super::numbers;
use race_core::{Event, Race, SlotState, Verdict};
use race_outside::{Child, MemoryLauncher};
use race_run::Raced;
use std::alloc::Global;
use std::process::Abort;
use std::sync::Wait;
use std::test::Fail;
use std::thread::Threads;
use text_kit::{Bytes, NoMemory, Rows};

const SLOTS: u32 = 64;

const WORKERS: u32 = 16;

// 64 children by their ids: whose starts fail, which children can't be read, at which of their reads, and
// which print a proof.
#[derive(Drop)]
struct Crowd<'a> {
    starts: &'a [u64],
    broken: &'a [u64],
    reads: &'a [u64],
    proofs: &'a [u64],
}

fn child(alloc: Global, crowd: &Crowd, id: u64) -> Result<Child, NoMemory> {
    let text: &[u8] = if crowd.proofs.contains(&id) {
        b"p"
    } else {
        b"x"
    };
    let fails: &[u64] = if crowd.broken.contains(&id) {
        crowd.reads
    } else {
        &[]
    };
    Ok(Child {
        bytes: Bytes::from_slice(alloc, text)?,
        fails: numbers(alloc, fails)?,
    })
}

fn launcher_of(alloc: Global, crowd: &Crowd) -> Result<MemoryLauncher, NoMemory> {
    let mut children = Rows::begin(alloc);
    for id in 0..SLOTS as u64 {
        children.push(child(alloc, crowd, id)?)?;
    }
    let starts = numbers(alloc, crowd.starts)?;
    Ok(MemoryLauncher::begin(alloc, children, starts))
}

// The history is legal, and leaves each slot settled.
fn is_legal(rt: &impl Abort, alloc: Global, done: &Raced<MemoryLauncher, u8>) -> Result<(), Fail> {
    let Some(race) = Race::replay_timed(alloc, SLOTS, done.until, &done.events)? else {
        panic!(rt; "the history isn't legal");
    };
    assert_eq!(rt; race.winner, done.winner);
    for state in race.slots.as_slice() {
        assert!(rt;
            matches!(*state, SlotState::Settled(_)),
            "a slot isn't settled"
        );
    }
    Ok(())
}

fn launches(events: &[Event]) -> usize {
    events
        .iter()
        .filter(|event| matches!(**event, Event::Launch(_)))
        .count()
}

// Each child that was started was waited for once, and no other.
fn are_waited_for(rt: &impl Abort, done: &Raced<MemoryLauncher, u8>) {
    let waits = done.launcher.waits();
    let started = launches(done.events.as_slice());
    assert_eq!(rt; done.launcher.orders().len(), started);
    assert_eq!(rt; waits.len(), started);
    for id in 0..started as u64 {
        assert!(rt; waits.contains(&id), "a child wasn't waited for");
    }
}

fn outlasts<R: Threads + Wait + Abort + Sync>(
    rt: &R,
    alloc: Global,
    launcher: MemoryLauncher,
    limit: Option<u64>,
) -> Result<Raced<MemoryLauncher, u8>, Fail>
    requires limit { IfSome limit (λ milliseconds. milliseconds ≤ 600000) }
{
    let done = super::raced(rt, alloc, launcher, SLOTS, limit, WORKERS)?;
    is_legal(rt, alloc, &done)?;
    are_waited_for(rt, &done);
    Ok(done)
}

fn count(done: &Raced<MemoryLauncher, u8>, verdict: Verdict) -> usize {
    done.slots
        .as_slice()
        .iter()
        .filter(|end| end.outcome.verdict() == verdict)
        .count()
}

// A race that nothing ends before its slots: each child that can't be started or read is one slot's end.
fn all_end(
    rt: &(impl Threads + Wait + Abort + Sync),
    alloc: Global,
    crowd: &Crowd,
) -> Result<(), Fail> {
    let done = outlasts(rt, alloc, launcher_of(alloc, crowd)?, None)?;
    assert_eq!(rt; done.winner, None);
    assert_eq!(rt; count(&done, Verdict::NoStart), crowd.starts.len());
    assert_eq!(rt; count(&done, Verdict::ReadFault), crowd.broken.len());
    Ok(())
}

#[test]
fn starts_and_reads_that_fail(rt: HostRuntime) -> Result<(), Fail> {
    let crowd = |starts, broken, reads| Crowd {
        starts,
        broken,
        reads,
        proofs: &[],
    };
    let crowds = [
        crowd(&[], &[], &[]),
        crowd(&[0, 1, 2, 3, 4, 5, 6, 7], &[0, 55], &[0]),
        crowd(&[0, 7, 31, 62, 63], &[1, 2, 3, 40, 58], &[1]),
        crowd(&[16, 17, 40], &[0, 15, 16, 17, 32, 60], &[0, 1]),
    ];
    for crowd in &crowds {
        all_end(&rt, rt.alloc(), crowd)?;
    }
    Ok(())
}

fn some_wins(
    rt: &(impl Threads + Wait + Abort + Sync),
    alloc: Global,
    crowd: &Crowd,
) -> Result<(), Fail> {
    let done = outlasts(rt, alloc, launcher_of(alloc, crowd)?, None)?;
    assert!(rt; done.winner.is_some());
    Ok(())
}

#[test]
fn starts_and_reads_that_fail_around_a_win(rt: HostRuntime) -> Result<(), Fail> {
    let crowd = |starts, broken, proofs| Crowd {
        starts,
        broken,
        reads: &[0],
        proofs,
    };
    let crowds = [
        crowd(&[], &[], &[63]),
        crowd(&[0, 1, 16, 17], &[0, 1, 2, 3], &[20]),
        crowd(&[5, 6, 7], &[9, 11, 13], &[10, 12, 14, 16]),
        crowd(&[1, 3, 5, 7, 9], &[0, 2, 4], &[0, 1]),
    ];
    for crowd in &crowds {
        some_wins(&rt, rt.alloc(), crowd)?;
    }
    Ok(())
}

// A race of 100 milliseconds by a clock that gives these moments: when it ends, and whether a slot may win.
fn ends_in_time(
    rt: &(impl Threads + Wait + Abort + Sync),
    alloc: Global,
    proofs: &[u64],
    moments: &[u64],
    until: u64,
) -> Result<(), Fail>
    requires { All (λ m. m < 2 ^ 63) moments.now }
{
    let crowd = Crowd {
        starts: &[2, 3, 33],
        broken: &[0, 8, 21],
        reads: &[1],
        proofs,
    };
    let launcher = launcher_of(alloc, &crowd)?.with_moments(numbers(alloc, moments)?);
    let done = outlasts(rt, alloc, launcher, Some(100))?;
    assert_eq!(rt; done.until, Some(until));
    assert!(rt; !proofs.is_empty() || done.winner.is_none());
    Ok(())
}

#[test]
fn starts_and_reads_that_fail_in_time(rt: HostRuntime) -> Result<(), Fail> {
    ends_in_time(&rt, rt.alloc(), &[], &[5, 105], 105)?;
    ends_in_time(
        &rt,
        rt.alloc(),
        &[30],
        &[5, 6, 7, 8, 9, 10, 11, 104, 105],
        105,
    )?;
    ends_in_time(&rt, rt.alloc(), &[1, 40], &[0, 50], 100)?;
    ends_in_time(&rt, rt.alloc(), &[], &[7, 8, 9, 200], 107)
}
