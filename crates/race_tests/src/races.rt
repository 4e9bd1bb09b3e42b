ghost use Rattle.std.specs.Prelude.{◌≡◌, ◌≤◌, ◌<◌, [], IsTrue, IfOk, IfSome, if◌then◌else◌};
ghost use Rattle.race_outside.specs.Works.{is_answer};

mod stress;

use race_board::DrainEnd;
use race_core::{Order, Outcome, Verdict};
use race_outside::{Child, GateLauncher, Launcher, MemoryLauncher, SureLauncher, Work, WorkTurn};
use race_run::*;
use std::alloc::Global;
use std::process::Abort;
use std::sync::Wait;
use std::test::Fail;
use std::thread::Threads;
use text_kit::{Bytes, NoMemory, Rows};

// Tells by its first byte whether a text is a proof.
#[derive(Drop)]
struct FirstByte;

#[derive(Drop)]
struct Text {
    bytes: Bytes,
    over: bool,
}

impl Work for FirstByte {
    type Proof = u8;

    type Task = Text;

    ghost key = { λ w. [] };

    ghost answers = { λ key bytes o. IsTrue (is_answer o) };

    ghost task_key = { λ text. [] };

    ghost task_bytes = { λ text. text.bytes };

    ghost over = { λ text. text.over };

    ghost turns = { λ text. if text.over then 0 else 1 };

    ghost answers_bytes = { λ key bytes o right. right };

    fn begin(&self, alloc: Global, bytes: &Bytes) -> Result<Text, NoMemory> {
        match bytes.copy(alloc) {
            Ok(bytes) => Ok(Text { bytes, over: false }),
            Err(NoMemory) => Err(NoMemory),
        }
    }

    fn turn(&self, text: &mut Text) -> WorkTurn<u8> {
        text.over = true;
        match text.bytes.get(0) {
            None => WorkTurn::Done(Outcome::NoStatus),
            Some(b'p') => WorkTurn::Done(Outcome::Proved(7)),
            Some(_) => WorkTurn::Done(Outcome::NoProof),
        }
    }
}

// How long a child's output is, which reads of it fail, and how its reading ends: after so many bytes.
#[derive(Drop)]
struct Row<'a> {
    bytes: usize,
    fails: &'a [u64],
    end: DrainEnd,
    read: usize,
    pipe_faults: u64,
}

fn numbers(alloc: Global, from: &[u64]) -> Result<Rows<u64>, NoMemory>
    ensures { IfOk result (λ it. it ≡ from.now) }
{
    match Vec::from_slice(alloc, from) {
        Ok(items) => Ok(Rows::from_vec(items)),
        Err(_) => Err(NoMemory),
    }
}

fn letters(alloc: Global, many: usize) -> Result<Bytes, NoMemory> {
    match vec![in alloc; b'a'; many] {
        Ok(items) => Bytes::from_slice(alloc, items.as_slice()),
        Err(_) => Err(NoMemory),
    }
}

fn is_drained(rt: &impl Abort, alloc: Global, row: &Row) -> Result<(), Fail> {
    let mut children = Rows::begin(alloc);
    children.push(Child {
        bytes: letters(alloc, row.bytes)?,
        fails: numbers(alloc, row.fails)?,
    })?;
    let mut launcher = MemoryLauncher::begin(alloc, children, Rows::begin(alloc));
    let (_, pipe) = launcher.start(&Rows::begin(alloc), &Bytes::begin(alloc))?;
    let drained = drain(alloc, pipe);
    assert_eq!(rt; drained.end, row.end);
    assert_eq!(rt; drained.bytes.len(), row.read);
    assert_eq!(rt; drained.pipe_faults, row.pipe_faults);
    Ok(())
}

#[test]
fn pipes_are_read_to_their_ends(rt: HostRuntime) -> Result<(), Fail> {
    const MOST: usize = 4_194_305;
    let row = |bytes, fails, end, read, pipe_faults| Row {
        bytes,
        fails,
        end,
        read,
        pipe_faults,
    };
    let rows = [
        row(0, &[], DrainEnd::Ended, 0, 0),
        row(70_000, &[], DrainEnd::Ended, 70_000, 0),
        row(70_000, &[1], DrainEnd::Failed, 65_536, 1),
        row(70_000, &[0], DrainEnd::Failed, 0, 1),
        row(MOST - 1, &[], DrainEnd::Ended, MOST - 1, 0),
        row(MOST, &[], DrainEnd::Long, MOST, 0),
        row(MOST + 1, &[64], DrainEnd::Failed, MOST - 1, 1),
        row(MOST + 1, &[65], DrainEnd::Long, MOST, 0),
    ];
    for row in &rows {
        is_drained(&rt, rt.alloc(), row)?;
    }
    Ok(())
}

fn orders(alloc: Global, many: u32) -> Result<Rows<Order>, NoMemory> {
    let mut orders = Rows::begin(alloc);
    for _ in 0..many {
        orders.push(Order {
            args: Rows::begin(alloc),
            problem: Bytes::begin(alloc),
        })?;
    }
    Ok(orders)
}

fn raced<L: Launcher, R: Threads + Wait + Abort + Sync>(
    rt: &R,
    alloc: Global,
    launcher: L,
    slots: u32,
    limit: Option<u64>,
    workers: u32,
) -> Result<Raced<L, u8>, Fail>
    requires workers { (0 < workers) × (workers ≤ 16) }
    requires limit { IfSome limit (λ milliseconds. milliseconds ≤ 600000) }
{
    let orders = orders(alloc, slots)?;
    let many = orders.len();
    assert!(rt; 0 < many && many <= 64);
    let Ok(done) = run_race(rt, alloc, launcher, orders, limit, &FirstByte, workers) else {
        panic!(rt; "no memory");
    };
    assert_eq!(rt; done.slots.len(), slots as usize);
    Ok(done)
}

fn is_silent<R: Threads + Wait + Abort + Sync>(
    rt: &R,
    alloc: Global,
    workers: u32,
) -> Result<(), Fail>
    requires { (0 < workers) × (workers ≤ 16) }
{
    let launcher = SureLauncher::begin(alloc, Rows::begin(alloc));
    let done = raced(rt, alloc, launcher, 8, None, workers)?;
    assert_eq!(rt; done.winner, None);
    for end in done.slots.as_slice() {
        assert_eq!(rt; end.outcome.verdict(), Verdict::NoStatus);
    }
    assert_eq!(rt; done.launcher.waits().len(), 8);
    assert!(rt; done.launcher.kills().is_empty());
    Ok(())
}

#[test]
fn slots_whose_children_print_nothing_have_no_status(rt: HostRuntime) -> Result<(), Fail> {
    for _ in 0..34 {
        is_silent(&rt, rt.alloc(), 1)?;
        is_silent(&rt, rt.alloc(), 4)?;
        is_silent(&rt, rt.alloc(), 16)?;
    }
    Ok(())
}

#[test]
fn gate_two_children(rt: HostRuntime) -> Result<(), Fail> {
    let launcher = GateLauncher::begin(rt.alloc())?;
    let done = raced(&rt, rt.alloc(), launcher, 2, None, 2)?;
    for end in done.slots.as_slice() {
        assert_eq!(rt; end.outcome.verdict(), Verdict::NoStatus);
    }
    Ok(())
}

fn printing(alloc: Global, texts: &[&[u8]]) -> Result<MemoryLauncher, NoMemory> {
    let mut children = Rows::begin(alloc);
    for text in texts {
        children.push(Child {
            bytes: Bytes::from_slice(alloc, text)?,
            fails: Rows::begin(alloc),
        })?;
    }
    Ok(MemoryLauncher::begin(alloc, children, Rows::begin(alloc)))
}

#[test]
fn the_first_proof_wins(rt: HostRuntime) -> Result<(), Fail> {
    let launcher = printing(rt.alloc(), &[b"", b"p", b"x", b"p"])?;
    let done = raced(&rt, rt.alloc(), launcher, 4, None, 1)?;
    assert_eq!(rt; done.winner, Some(1));
    let wanted = [
        Verdict::NoStatus,
        Verdict::Proved,
        Verdict::Cancelled,
        Verdict::Cancelled,
    ];
    for (end, verdict) in done.slots.as_slice().iter().zip(&wanted) {
        assert_eq!(rt; end.outcome.verdict(), *verdict);
    }
    assert_eq!(rt; done.launcher.waits(), [0, 1].as_slice());
    let launcher = printing(rt.alloc(), &[b"", b"p", b"x", b"p"])?;
    let done = raced(&rt, rt.alloc(), launcher, 4, None, 4)?;
    assert!(rt; done.winner == Some(1) || done.winner == Some(3));
    Ok(())
}

#[test]
fn a_limit_ends_the_race(rt: HostRuntime) -> Result<(), Fail> {
    let alloc = rt.alloc();
    for workers in 1..17u32 {
        let launcher = printing(alloc, &[b"x", b"x", b"x", b"x"])?;
        let launcher = launcher.with_moments(numbers(alloc, &[5, 105])?);
        let done = raced(&rt, alloc, launcher, 4, Some(100), workers)?;
        assert_eq!(rt; done.until, Some(105));
        assert_eq!(rt; done.winner, None);
        for end in done.slots.as_slice() {
            let verdict = end.outcome.verdict();
            assert!(rt; verdict == Verdict::NoProof || verdict == Verdict::TimedOut);
        }
    }
    Ok(())
}
