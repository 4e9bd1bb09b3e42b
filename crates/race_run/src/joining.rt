ghost use Rattle.std.specs.Prelude.{◌≡◌, ◌≤◌, ◌<◌, ◌+◌, [], true, IfOk, OnErr, is_some, vec_len, vec_capacity};
ghost use Rattle.race_board.specs.Boards.{up_of};

use crate::back::Back;
use crate::reaping::reap_back;
use crate::seat::Seat;
use crate::watching::watch;
use crate::worker::work;
use race_board::{Board, Name};
use race_outside::{Launcher, Pipe, Work};
use std::alloc::{AllocError, Global};
use std::marker::PhantomData;
use std::sync::atomic::{AtomicBool, Ordering};
use std::sync::ledger::Share;
use std::sync::{Mutex, Wait};
use std::thread;
use std::thread::Threads;

/// Runs so many workers over the board, with a watch beside them where there is a limit of time, joins them,
/// and waits for each child that they left.
///
/// It can't be refused: where no thread can be made the workers run one after another, and where there is no
/// room for them none runs.
pub fn race<L: Launcher, W: Work, N: Name + Send + Sync, R: Threads + Wait + Sync>(
    rt: &R,
    alloc: Global,
    board: Board<L, W, N>,
    job: &W,
    workers: u32,
    share: &mut Share<N>,
) -> Board<L, W, N>
    requires key { W.key job.now ≡ N.terms.key }
    requires workers { (0 < workers) × (workers ≤ 16) }
    requires whole { share.old.parts ≡ N.parts }
    requires parts { workers < N.parts }
    requires amount { share.old.amount ≡ 0 }
    ensures none { up_of result.race.slots ≡ 0 }
    ensures parts { share.new.parts ≡ N.parts }
    ensures amount { share.new.amount ≡ 0 }
{
    let mut board = board;
    let watched = board.race().until.is_some();
    let seats = if watched { workers + 1 } else { workers };
    let Ok(room) = room_of(alloc, seats, share) else {
        board.count(share);
        return board;
    };
    let Room {
        mut seats,
        backs,
        strays,
    } = room;
    let hint = AtomicBool::new(false);
    let shared = Mutex::new(board);
    sit_all(
        rt,
        alloc,
        &shared,
        job,
        &hint,
        seats.as_mut_slice(),
        watched,
    );
    let mut board = shared.into_inner();
    let backs = gather(share, seats, backs);
    reap_back(alloc, &mut board, job, backs, strays, share);
    board
}

// The seats of the workers and of the watch, and room for the pipes that they hand back.
struct Room<P: Pipe, N: Name> {
    seats: Vec<Seat<P, N>>,
    backs: Vec<Back<P, N>>,
    strays: Vec<Back<P, N>>,
}

// Takes the room for so many seats, each with one part of the share.
fn room_of<P: Pipe, N: Name>(
    alloc: Global,
    seats: u32,
    share: &mut Share<N>,
) -> Result<Room<P, N>, AllocError>
    requires parts { seats ≤ share.old.parts }
    requires amount { share.old.amount ≡ 0 }
    ensures count { IfOk result (λ room. vec_len room.seats ≡ seats) }
    ensures parts { IfOk result (λ room. share.new.parts + vec_len room.seats ≡ share.old.parts) }
    ensures backs { IfOk result (λ room. (vec_len room.backs ≡ 0) × (vec_len room.seats ≤ vec_capacity room.backs)) }
    ensures strays { IfOk result (λ room. (vec_len room.strays ≡ 0) × (vec_len room.seats ≤ vec_capacity room.strays)) }
    ensures amount { share.new.amount ≡ 0 }
    ensures none { OnErr result (share.new.parts ≡ share.old.parts) }
{
    let mut backs = Vec::new(alloc);
    backs.reserve(seats as usize)?;
    let mut strays = Vec::new(alloc);
    strays.reserve(seats as usize)?;
    let seats = seats_of(alloc, seats, share)?;
    Ok(Room {
        seats,
        backs,
        strays,
    })
}

fn seats_of<P: Pipe, N: Name>(
    alloc: Global,
    count: u32,
    share: &mut Share<N>,
) -> Result<Vec<Seat<P, N>>, AllocError>
    requires parts { count ≤ share.old.parts }
    requires amount { share.old.amount ≡ 0 }
    ensures count { IfOk result (λ seats. vec_len seats ≡ count) }
    ensures parts { IfOk result (λ seats. share.new.parts + vec_len seats ≡ share.old.parts) }
    ensures amount { share.new.amount ≡ 0 }
    ensures none { OnErr result (share.new.parts ≡ share.old.parts) }
{
    let mut seats = Vec::new(alloc);
    seats.reserve(count as usize)?;
    for _seat in 0..count {
        let share = share.split_off(1, 0);
        seats.push_reserved(Seat { share, back: None });
    }
    Ok(seats)
}

// Runs a worker on each seat, but for the last one where there is a watch, and joins them.
fn sit_all<L: Launcher, W: Work, N: Name + Send + Sync, R: Threads + Wait + Sync>(
    rt: &R,
    alloc: Global,
    board: &Mutex<Board<L, W, N>>,
    job: &W,
    hint: &AtomicBool,
    seats: &mut [Seat<L::Pipe, N>],
    watched: bool,
)
    requires key { W.key job.now ≡ N.terms.key }
    requires limited { watched ≡ true → is_some N.terms.limit ≡ true }
{
    let count = seats.len();
    if count == 0 {
        return;
    }
    let last = count - 1;
    thread::for_each_mut(
        rt,
        seats,
        count,
        &|at, seat: &mut Seat<L::Pipe, N>|
            requires { (W.key job.now ≡ N.terms.key) × (watched ≡ true → is_some N.terms.limit ≡ true) }
        {
            if watched && at == last {
                watch(rt, board);
                hint.store(true, Ordering::SeqCst);
            } else {
                sit(rt, alloc, board, job, hint, seat);
            }
        },
    );
}

// One worker on its seat.
fn sit<L: Launcher, W: Work, N: Name, R: Wait>(
    rt: &R,
    alloc: Global,
    board: &Mutex<Board<L, W, N>>,
    job: &W,
    hint: &AtomicBool,
    seat: &mut Seat<L::Pipe, N>,
)
    requires key { W.key job.now ≡ N.terms.key }
{
    if seat.back.is_some() {
        return;
    }
    let Seat { share, back } = seat;
    *back = match work(rt, alloc, board, job, hint, share) {
        Some(drained) => Some(Back {
            drained,
            race: PhantomData,
        }),
        None => None,
    };
}

// All shares are one again, and the pipes are those that were handed back.
fn gather<P: Pipe, N: Name>(
    share: &mut Share<N>,
    mut seats: Vec<Seat<P, N>>,
    mut backs: Vec<Back<P, N>>,
) -> Vec<Back<P, N>>
    requires amount { share.old.amount ≡ vec_len backs }
    requires room { vec_len backs + vec_len seats ≤ vec_capacity backs }
    ensures parts { share.new.parts ≡ share.old.parts + vec_len seats }
    ensures amount { share.new.amount ≡ vec_len result }
    ensures few { vec_len result ≤ vec_len backs + vec_len seats }
{
    while let Some(seat) = seats.pop() {
        let Seat { share: part, back } = seat;
        share.merge(part);
        if let Some(back) = back {
            backs.push_reserved(back);
        }
    }
    backs
}
