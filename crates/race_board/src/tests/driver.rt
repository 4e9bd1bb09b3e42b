//! Races over launchers in memory, move by move.
ghost use Rattle.std.specs.Prelude.{◌≡◌, ◌≤◌, ◌<◌, ◌^◌, [], Some, None, true, false, if◌then◌else◌, All, IsTrue, IfOk, IfSome, OnSome, length, slice_get, is_some};
ghost use Rattle.std.specs.Bool.{OnTrue, OnFalse};
ghost use Rattle.race_core.specs.declared.slot.SlotState.TheVariants.{Reaped, ReapedLate};
ghost use Rattle.race_outside.specs.Works.{is_answer};
ghost use Rattle.race_outside.specs.Memory.{told_by, told_of};
ghost use Rattle.race_board.specs.Ends.{MayEnd};
ghost use Rattle.race_board.specs.Boards.{is_settled};
ghost use Rattle.race_board.specs.Calls.{IsUp};

use crate::{Board, DrainEnd, Drained, Launched, Name};
use race_core::{Event, Kept, Order, Outcome, Race, SlotEnd, SlotState};
use race_outside::{Chunk, Launcher, MemoryLauncher, MemoryPipe, Pipe, Work, WorkTurn};
use std::alloc::Global;
use std::marker::{Brand, PhantomData};
use std::sync::ledger::{Blank, Share};
use text_kit::{Bytes, NoMemory, Rows};

// Each outcome is right that a child's bytes can have.
#[derive(Drop)]
struct AnyAnswer;

impl Work for AnyAnswer {
    type Proof = u8;

    type Task = bool;

    ghost key = { λ w. [] };

    ghost answers = { λ key bytes o. IsTrue (is_answer o) };

    ghost task_key = { λ over. [] };

    ghost task_bytes = { λ over. [] };

    ghost over = { λ over. over };

    ghost turns = { λ over. if over then 0 else 1 };

    ghost answers_bytes = { λ key bytes o right. right };

    fn begin(&self, _alloc: Global, _bytes: &Bytes) -> Result<bool, NoMemory> {
        Err(NoMemory)
    }

    fn turn(&self, task: &mut bool) -> WorkTurn<u8> {
        *task = true;
        WorkTurn::Done(Outcome::Saturated)
    }
}

// A drained pipe that tells what is told of its child.
#[derive(Drop)]
struct Held<N: Name> {
    drained: Drained<MemoryPipe>,
    race: PhantomData<N>,
    ghost told: { told_by drained.pipe ≡ N.terms.children drained.pipe.number },
}

// What is done with a slot, where that can be done.
#[derive(Clone, Copy, Debug)]
pub enum Move {
    Launch(u32),
    End(u32, bool),
    Lose(u32, u32),
    Skip(u32),
    Expire,
}

// What a finished race hands out.
#[derive(Drop)]
pub struct Played {
    pub launcher: MemoryLauncher,
    pub events: Rows<Event>,
    pub ends: Rows<SlotEnd<u8>>,
    pub winner: Option<u32>,
    pub until: Option<u64>,
}

// Drains a pipe whose child prints nothing.
fn drained(alloc: Global, mut pipe: MemoryPipe) -> Drained<MemoryPipe>
    requires { pipe.flow.left ≡ pipe.flow.whole }
    ensures number { result.pipe.number ≡ pipe.number }
    ensures told { told_by result.pipe ≡ told_by pipe }
{
    let mut buffer = [0u8; 1];
    let end = match pipe.read(&mut buffer) {
        Chunk::End => DrainEnd::Ended,
        _ => DrainEnd::NoMemory,
    };
    let pipe_faults = pipe.fault_count();
    Drained {
        pipe,
        bytes: Bytes::begin(alloc),
        pipe_faults,
        end,
    }
}

fn launch<N: Name>(
    alloc: Global,
    board: &mut Board<MemoryLauncher, AnyAnswer, N>,
    slot: u32,
    share: &mut Share<N>,
) -> Option<Held<N>>
    requires { 0 < share.old.parts }
    ensures { share.new.parts ≡ share.old.parts }
{
    let race = board.race();
    if !race.is_open() {
        return None;
    }
    match race.state(slot) {
        Some(SlotState::Waiting) => {}
        _ => return None,
    }
    match board.launch(slot, share) {
        Launched::Up(pipe) => Some(Held {
            drained: drained(alloc, pipe),
            race: PhantomData,
        }),
        _ => None,
    }
}

// The end of a slot that gave all that its child printed.
fn outcome_for(kept: &Kept, late: bool, won: bool, proved: bool) -> Option<Outcome<u8>>
    ensures { IfSome result (λ o. MayEnd (λ bytes x. IsTrue (is_answer x)) late won kept.now o) }
{
    if won {
        return Some(Outcome::Cancelled);
    }
    if late {
        return Some(Outcome::TimedOut);
    }
    if let Some(stray) = kept.stray {
        return Some(Outcome::Lost { stray });
    }
    if kept.pipe_faults > 0 || kept.short || kept.bytes.len() == 4_194_305 {
        return None;
    }
    if proved {
        Some(Outcome::Proved(7))
    } else {
        Some(Outcome::Saturated)
    }
}

fn settle_as<N: Name>(
    board: &mut Board<MemoryLauncher, AnyAnswer, N>,
    slot: u32,
    late: bool,
    proved: bool,
) -> bool
    requires { slice_get board.old.race.slots slot ≡ Some (if late then ReapedLate else Reaped) }
{
    let won = board.race().winner.is_some();
    let Some(kept) = board.kept(slot) else {
        return false;
    };
    let Some(outcome) = outcome_for(kept, late, won, proved) else {
        return false;
    };
    board.settle(slot, outcome);
    true
}

fn settle<N: Name>(
    board: &mut Board<MemoryLauncher, AnyAnswer, N>,
    slot: u32,
    proved: bool,
) -> bool {
    match board.race().state(slot) {
        Some(SlotState::Reaped) => settle_as(board, slot, false, proved),
        Some(SlotState::ReapedLate) => settle_as(board, slot, true, proved),
        _ => false,
    }
}

fn is_up(state: Option<SlotState>) -> bool
    ensures up { OnTrue result (IsUp state) }
    ensures down { OnFalse result (IsUp state → ⊥) }
{
    match state {
        Some(SlotState::Running | SlotState::Overdue) => true,
        _ => false,
    }
}

fn end<N: Name>(
    board: &mut Board<MemoryLauncher, AnyAnswer, N>,
    slot: u32,
    held: Held<N>,
    share: &mut Share<N>,
    proved: bool,
) -> bool
    requires { share.old.parts ≡ N.parts }
    ensures { share.new.parts ≡ share.old.parts }
{
    let Held { drained, race: _ } = held;
    if !is_up(board.race().state(slot)) || board.id_of(slot) != Some(drained.pipe.id()) {
        return false;
    }
    board.count(share);
    board.reap(slot, drained, share);
    settle(board, slot, proved)
}

// The pipe of another launcher's child 0.
fn stray(alloc: Global) -> Option<Drained<MemoryPipe>> {
    let mut launcher = MemoryLauncher::begin(alloc, Rows::begin(alloc), Rows::begin(alloc));
    match launcher.start(&Rows::begin(alloc), &Bytes::begin(alloc)) {
        Ok((_, pipe)) => Some(drained(alloc, pipe)),
        Err(_) => None,
    }
}

// Reaps a slot with the pipe of another slot's child, which was waited for.
fn lose<N: Name>(
    board: &mut Board<MemoryLauncher, AnyAnswer, N>,
    slot: u32,
    other: u32,
    stray: Drained<MemoryPipe>,
    share: &mut Share<N>,
) -> bool
    requires { share.old.parts ≡ N.parts }
    ensures { share.new.parts ≡ share.old.parts }
{
    let race = board.race();
    if !is_up(race.state(slot)) || is_up(race.state(other)) {
        return false;
    }
    if board.id_of(other) != Some(stray.pipe.id()) {
        return false;
    }
    board.count(share);
    board.reap_lost(slot, stray, share);
    settle(board, slot, false)
}

fn skip<N: Name>(board: &mut Board<MemoryLauncher, AnyAnswer, N>, slot: u32) -> bool {
    let race = board.race();
    if race.is_open() {
        return false;
    }
    match race.state(slot) {
        Some(SlotState::Waiting) => {
            board.skip(slot);
            true
        }
        _ => false,
    }
}

fn expire<N: Name>(board: &mut Board<MemoryLauncher, AnyAnswer, N>) -> bool {
    let race = board.race();
    if race.until.is_none() || !race.is_open() {
        return false;
    }
    board.expire()
}

fn all_settled(race: &Race) -> bool
    ensures { OnTrue result (All (λ s. is_settled s ≡ true) race.now.slots) }
{
    for state in race.slots.as_slice() {
        match *state {
            SlotState::Settled(_) => {}
            _ => return false,
        }
    }
    true
}

fn act<N: Name>(
    alloc: Global,
    board: &mut Board<MemoryLauncher, AnyAnswer, N>,
    share: &mut Share<N>,
    held: &mut Vec<Option<Held<N>>>,
    step: Move,
) -> bool
    requires { (share.old.parts ≡ N.parts) × (0 < N.parts) }
    ensures { share.new.parts ≡ share.old.parts }
{
    match step {
        Move::Launch(slot) => {
            let mine = launch(alloc, board, slot, share);
            if let Some(place) = held.get_mut(slot as usize) {
                *place = mine;
            }
            true
        }
        Move::End(slot, proved) => {
            let Some(place) = held.get_mut(slot as usize) else {
                return false;
            };
            let Some(mine) = place.take() else {
                return false;
            };
            end(board, slot, mine, share, proved)
        }
        Move::Lose(slot, other) => match stray(alloc) {
            Some(stray) => lose(board, slot, other, stray, share),
            None => false,
        },
        Move::Skip(slot) => skip(board, slot),
        Move::Expire => expire(board),
    }
}

// The race of these moves, where each slot is settled at its end.
fn play<N: Name>(
    alloc: Global,
    blank: Blank,
    launcher: MemoryLauncher,
    orders: Rows<Order>,
    limit: Option<u64>,
    moves: &[Move],
) -> Result<Option<Played>, NoMemory>
    requires ledger { (blank.name ≡ N.name) × (blank.parts ≡ N.parts) × (N.parts ≡ 17) }
    requires orders { orders ≡ N.terms.orders }
    requires few { (0 < length orders) × (length orders ≤ 64) }
    requires limit { limit ≡ N.terms.limit }
    requires short { IfSome limit (λ milliseconds. milliseconds ≤ 600000) }
    requires first { launcher.standing ≡ N.terms.first }
    requires children { (λ id. told_of (slice_get launcher.children id)) ≡ N.terms.children }
{
    let slots = orders.len();
    let begun = match limit {
        None => Board::<MemoryLauncher, AnyAnswer, N>::begin(alloc, blank, launcher, orders),
        Some(_) => Board::begin_timed(alloc, blank, launcher, orders, limit),
    };
    let Ok((mut board, mut share)) = begun else {
        return Err(NoMemory);
    };
    let mut held: Vec<Option<Held<N>>> = Vec::new(alloc);
    for _ in 0..slots {
        if held.push(None).is_err() {
            return Err(NoMemory);
        }
    }
    for step in moves {
        act(alloc, &mut board, &mut share, &mut held, *step);
    }
    if !all_settled(board.race()) {
        return Ok(None);
    }
    let until = board.race().until;
    let (launcher, events, ends, winner) = board.finish();
    Ok(Some(Played {
        launcher,
        events,
        ends,
        winner,
        until,
    }))
}

fn numbers(alloc: Global, from: &[u32]) -> Result<Rows<u64>, NoMemory>
    ensures { IfOk result (λ it. All (λ m. m < 2 ^ 63) it) }
{
    let mut all = Rows::begin(alloc);
    for number in from {
        all.push(u64::from(*number))?;
    }
    Ok(all)
}

fn bounded(limit: Option<u64>) -> Option<u64>
    ensures { IfSome result (λ milliseconds. milliseconds ≤ 600000) }
{
    match limit {
        Some(milliseconds) if milliseconds <= 600_000 => limit,
        _ => None,
    }
}

// What a race is over: how many slots it has, whose children print nothing, which starts fail, its limit
// of time, and the moments of its clock.
#[derive(Drop)]
pub struct Setting<'a> {
    pub slots: u32,
    pub fails: &'a [u32],
    pub limit: Option<u64>,
    pub moments: &'a [u32],
}

pub fn race_over(
    alloc: Global,
    setting: &Setting,
    moves: &[Move],
) -> Result<Option<Played>, NoMemory> {
    let mut orders = Rows::begin(alloc);
    for _ in 0..setting.slots {
        orders.push(Order {
            args: Rows::begin(alloc),
            problem: Bytes::begin(alloc),
        })?;
    }
    if orders.len() == 0 || orders.len() > 64 {
        return Ok(None);
    }
    let fails = numbers(alloc, setting.fails)?;
    let moments = numbers(alloc, setting.moments)?;
    let launcher = MemoryLauncher::begin(alloc, Rows::begin(alloc), fails).with_moments(moments);
    let limit = bounded(setting.limit);
    play::<Brand>(alloc, Blank::new(17), launcher, orders, limit, moves)
}
