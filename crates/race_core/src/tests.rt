use crate::{Event, Outcome, Race, SlotState, Verdict};
use std::alloc::Global;
use std::process::Abort;
use std::test::Fail;
use text_kit::Rows;

// A history of three slots, what they are then, and events that aren't legal behind it.
#[derive(Drop)]
struct Row<'a> {
    until: Option<u64>,
    history: &'a [Event],
    slots: [SlotState; 3],
    winner: Option<u32>,
    late: bool,
    illegal: &'a [Event],
}

fn runs(rt: &impl Abort, alloc: Global, row: &Row) -> Result<(), Fail> {
    let mut race = Race::begin_timed(alloc, 3, row.until)?;
    for event in row.history {
        assert!(rt; race.step(*event), "{event:?}");
    }
    let mut events = Rows::begin(alloc);
    for event in row.history {
        events.push(*event)?;
    }
    assert!(rt; Race::replay_timed(alloc, 3, row.until, &events)?.is_some());
    for event in row.illegal {
        assert!(rt; !race.step(*event), "{event:?}");
        events.push(*event)?;
        assert!(rt; Race::replay_timed(alloc, 3, row.until, &events)?.is_none());
        events.pop();
    }
    assert_eq!(rt; race.slots.as_slice(), row.slots.as_slice());
    assert_eq!(rt; race.winner, row.winner);
    assert_eq!(rt; race.until, row.until);
    assert_eq!(rt; race.late, row.late);
    Ok(())
}

#[test]
fn whole_histories(rt: HostRuntime) -> Result<(), Fail> {
    use Event::{Expire, Launch, Reap, Settle, Skip};
    use SlotState::Settled;
    use Verdict::{Cancelled, Proved, Saturated, Spent, TimedOut};
    let rows = [
        Row {
            until: None,
            history: &[
                Launch(0),
                Launch(1),
                Launch(2),
                Reap(0),
                Settle(0, Saturated),
                Reap(1),
                Settle(1, Proved),
                Reap(2),
                Settle(2, Cancelled),
            ],
            slots: [Settled(Saturated), Settled(Proved), Settled(Cancelled)],
            winner: Some(1),
            late: false,
            illegal: &[
                Launch(0),
                Launch(3),
                Reap(1),
                Settle(0, Spent),
                Skip(2),
                Expire(0),
            ],
        },
        Row {
            until: Some(100),
            history: &[
                Launch(0),
                Launch(1),
                Expire(100),
                Reap(0),
                Settle(0, TimedOut),
                Reap(1),
                Settle(1, TimedOut),
                Skip(2),
            ],
            slots: [Settled(TimedOut), Settled(TimedOut), Settled(TimedOut)],
            winner: None,
            late: true,
            illegal: &[Expire(200)],
        },
    ];
    for row in &rows {
        runs(&rt, rt.alloc(), row)?;
    }
    Ok(())
}

#[test]
fn histories_under_way(rt: HostRuntime) -> Result<(), Fail> {
    use Event::{Expire, Launch, NoRoom, NoStart, Reap, Settle, Skip};
    use SlotState::{Overdue, Reaped, ReapedLate, Running, Settled, Waiting};
    use Verdict::{Cancelled, Proved, Spent, TimedOut};
    let rows = [
        Row {
            until: Some(100),
            history: &[Launch(0), NoStart(2)],
            slots: [Running, Waiting, Settled(Verdict::NoStart)],
            winner: None,
            late: false,
            illegal: &[Expire(99), Skip(1), Reap(1), Settle(0, Spent), NoRoom(2)],
        },
        Row {
            until: Some(100),
            history: &[Launch(0), Reap(0)],
            slots: [Reaped, Waiting, Waiting],
            winner: None,
            late: false,
            illegal: &[
                Settle(0, Verdict::NoStart),
                Settle(0, TimedOut),
                Settle(0, Cancelled),
            ],
        },
        Row {
            until: Some(100),
            history: &[
                Launch(0),
                Launch(1),
                Reap(0),
                Reap(1),
                Settle(1, Proved),
                Settle(0, Proved),
            ],
            slots: [Settled(Proved), Settled(Proved), Waiting],
            winner: Some(1),
            late: false,
            illegal: &[Launch(2), NoStart(2), NoRoom(2), Expire(100)],
        },
        Row {
            until: Some(100),
            history: &[Launch(0), Launch(1), Expire(100), Reap(0)],
            slots: [ReapedLate, Overdue, Waiting],
            winner: None,
            late: true,
            illegal: &[
                Settle(0, Proved),
                Settle(0, Spent),
                Settle(0, Cancelled),
                Launch(2),
            ],
        },
    ];
    for row in &rows {
        runs(&rt, rt.alloc(), row)?;
    }
    Ok(())
}

#[test]
fn begins_without_a_limit(rt: HostRuntime) -> Result<(), Fail> {
    let race = Race::begin(rt.alloc(), 2)?;
    assert!(rt; race.is_open());
    assert_eq!(rt; race.state(1), Some(SlotState::Waiting));
    let none = Rows::begin(rt.alloc());
    assert!(rt; Race::replay(rt.alloc(), 2, &none)?.is_some());
    assert_eq!(rt; Outcome::Proved(7u8).verdict(), Verdict::Proved);
    Ok(())
}
