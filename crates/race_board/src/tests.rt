mod driver;

use driver::{Move, Setting, race_over};
use race_core::{Event, Race, Verdict};
use std::alloc::{AllocError, Global};
use std::process::Abort;
use std::test::Fail;

// What is to come of a race.
#[derive(Drop)]
struct Row<'a> {
    setting: Setting<'a>,
    moves: &'a [Move],
    events: &'a [Event],
    kills: &'a [u64],
    waits: &'a [u64],
    winner: Option<u32>,
    until: Option<u64>,
}

fn comes(rt: &impl Abort, alloc: Global, row: &Row) -> Result<(), Fail> {
    let Some(played) = race_over(alloc, &row.setting, row.moves)? else {
        assert!(rt; false, "a slot isn't settled");
        return Ok(());
    };
    assert_eq!(rt; played.events.as_slice(), row.events);
    assert_eq!(rt; played.launcher.kills(), row.kills);
    assert_eq!(rt; played.launcher.waits(), row.waits);
    assert_eq!(rt; played.winner, row.winner);
    assert_eq!(rt; played.until, row.until);
    assert_eq!(rt; played.ends.len(), row.setting.slots as usize);
    Ok(())
}

#[test]
fn a_win_cancels_the_rest(rt: HostRuntime) -> Result<(), Fail> {
    use Event::{Launch, Reap, Settle};
    use Verdict::{Cancelled, Proved, Saturated};
    let row = Row {
        setting: Setting {
            slots: 3,
            fails: &[],
            limit: None,
            moments: &[],
        },
        moves: &[
            Move::Launch(0),
            Move::Launch(1),
            Move::Launch(2),
            Move::End(0, false),
            Move::End(1, true),
            Move::End(2, false),
        ],
        events: &[
            Launch(0),
            Launch(1),
            Launch(2),
            Reap(0),
            Settle(0, Saturated),
            Reap(1),
            Settle(1, Proved),
            Reap(2),
            Settle(2, Cancelled),
        ],
        kills: &[2],
        waits: &[0, 1, 2],
        winner: Some(1),
        until: None,
    };
    comes(&rt, rt.alloc(), &row)
}

#[test]
fn the_limit_of_time_passes(rt: HostRuntime) -> Result<(), Fail> {
    use Event::{Expire, Launch, Reap, Settle, Skip};
    use Verdict::TimedOut;
    let row = Row {
        setting: Setting {
            slots: 3,
            fails: &[],
            limit: Some(100),
            moments: &[0, 50, 100],
        },
        moves: &[
            Move::Launch(0),
            Move::Launch(1),
            Move::Expire,
            Move::Expire,
            Move::End(0, true),
            Move::End(1, true),
            Move::Skip(2),
        ],
        events: &[
            Launch(0),
            Launch(1),
            Expire(100),
            Reap(0),
            Settle(0, TimedOut),
            Reap(1),
            Settle(1, TimedOut),
            Skip(2),
        ],
        kills: &[0, 1],
        waits: &[0, 1],
        winner: None,
        until: Some(100),
    };
    comes(&rt, rt.alloc(), &row)
}

#[test]
fn starts_fail(rt: HostRuntime) -> Result<(), Fail> {
    use Event::{Launch, NoStart, Reap, Settle, Skip};
    use Verdict::Proved;
    let row = Row {
        setting: Setting {
            slots: 4,
            fails: &[0, 2],
            limit: None,
            moments: &[],
        },
        moves: &[
            Move::Launch(3),
            Move::Launch(0),
            Move::Launch(1),
            Move::End(0, true),
            Move::Skip(2),
        ],
        events: &[
            NoStart(3),
            Launch(0),
            NoStart(1),
            Reap(0),
            Settle(0, Proved),
            Skip(2),
        ],
        kills: &[],
        waits: &[0],
        winner: Some(0),
        until: None,
    };
    comes(&rt, rt.alloc(), &row)
}

#[test]
fn a_slot_is_lost(rt: HostRuntime) -> Result<(), Fail> {
    use Event::{Launch, Reap, Settle};
    use Verdict::{Lost, Saturated};
    let row = Row {
        setting: Setting {
            slots: 2,
            fails: &[],
            limit: None,
            moments: &[],
        },
        moves: &[
            Move::Launch(0),
            Move::Launch(1),
            Move::Lose(1, 0),
            Move::End(0, false),
            Move::Lose(1, 0),
        ],
        events: &[
            Launch(0),
            Launch(1),
            Reap(0),
            Settle(0, Saturated),
            Reap(1),
            Settle(1, Lost),
        ],
        kills: &[],
        waits: &[0, 1],
        winner: None,
        until: None,
    };
    comes(&rt, rt.alloc(), &row)
}

// Launches each slot, ends each that was launched, one of them with a proof, and skips the others.
fn moves_of(alloc: Global, slots: u32, proved: u32) -> Result<Vec<Move>, AllocError> {
    let mut moves = Vec::new(alloc);
    for slot in 0..slots {
        moves.push(Move::Launch(slot))?;
    }
    for slot in 0..slots {
        moves.push(Move::End(slot, slot == proved))?;
    }
    for slot in 0..slots {
        moves.push(Move::Skip(slot))?;
    }
    Ok(moves)
}

fn outlasts(rt: &impl Abort, alloc: Global, setting: &Setting, proved: u32) -> Result<(), Fail> {
    let moves = moves_of(alloc, setting.slots, proved)?;
    let Some(played) = race_over(alloc, setting, moves.as_slice())? else {
        assert!(rt; false, "a slot isn't settled");
        return Ok(());
    };
    assert!(rt; Race::replay(alloc, setting.slots, &played.events)?.is_some());
    assert_eq!(rt;
        played.launcher.waits().len(),
        played.launcher.orders().len()
    );
    let won = !setting.fails.contains(&proved);
    assert_eq!(rt; played.winner, if won { Some(proved) } else { None });
    Ok(())
}

#[test]
fn races_with_starts_that_fail(rt: HostRuntime) -> Result<(), Fail> {
    let tables: [&[u32]; 5] = [&[], &[0], &[1, 2], &[0, 3, 5], &[0, 1, 2, 3, 4, 5]];
    for fails in tables {
        for slots in 6..9 {
            for proved in 0..6 {
                let setting = Setting {
                    slots,
                    fails,
                    limit: None,
                    moments: &[],
                };
                outlasts(&rt, rt.alloc(), &setting, proved)?;
            }
        }
    }
    Ok(())
}
