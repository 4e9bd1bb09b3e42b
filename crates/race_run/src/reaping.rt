ghost use Rattle.std.specs.Prelude.{◌≡◌, ◌≤◌, ◌<◌, ◌+◌, Some, MatchOption, vec_len, vec_capacity, length, slice_get};
ghost use Rattle.race_core.specs.Histories.{id_of};
ghost use Rattle.race_board.specs.Boards.{up_of};
ghost use Rattle.race_board.specs.Calls.{IsUp};
ghost use Rattle.race_board.specs.Ends.{IsFree};

use crate::back::Back;
use crate::owned::owner;
use crate::settling::settle_reaped;
use race_board::{Board, Name};
use race_core::SlotState;
use race_outside::{Launcher, Work};
use std::alloc::Global;
use std::sync::ledger::Share;

/// Waits for each child that wasn't waited for, with its own pipe, or as lost where that wasn't handed back,
/// and settles its slot.
///
/// The first pass looks for the slot of each pipe, so that none is lost whose pipe comes later.
pub(crate) fn reap_back<L: Launcher, W: Work, N: Name>(
    alloc: Global,
    board: &mut Board<L, W, N>,
    job: &W,
    mut backs: Vec<Back<L::Pipe, N>>,
    mut strays: Vec<Back<L::Pipe, N>>,
    share: &mut Share<N>,
)
    requires key { W.key job.now ≡ N.terms.key }
    requires whole { share.old.parts ≡ N.parts }
    requires counted { share.old.amount ≡ vec_len backs }
    requires none { vec_len strays ≡ 0 }
    requires room { vec_len backs ≤ vec_capacity strays }
    ensures parts { share.new.parts ≡ share.old.parts }
    ensures amount { share.new.amount ≡ 0 }
    ensures none { up_of board.new.race.slots ≡ 0 }
{
    while let Some(back) = backs.pop() {
        match owner(board, back.id()) {
            Some(slot) => reap_own(alloc, board, job, slot, back, share),
            None => strays.push_reserved(back),
        }
    }
    while let Some(stray) = strays.pop() {
        match owner(board, stray.id()) {
            Some(slot) => reap_own(alloc, board, job, slot, stray, share),
            None => reap_other(alloc, board, job, stray, share),
        }
    }
    board.count(share);
}

// Waits for the child of a slot with its own pipe, and settles the slot.
fn reap_own<L: Launcher, W: Work, N: Name>(
    alloc: Global,
    board: &mut Board<L, W, N>,
    job: &W,
    slot: u32,
    back: Back<L::Pipe, N>,
    share: &mut Share<N>,
)
    requires key { W.key job.now ≡ N.terms.key }
    requires up { IsUp (slice_get board.old.race.slots slot) }
    requires own { id_of N.terms.first.starts board.old.events slot ≡ Some (L.Pipe.number back.drained.pipe) }
    requires amount { 0 < share.old.amount }
    ensures parts { share.new.parts ≡ share.old.parts }
    ensures amount { share.new.amount + 1 ≡ share.old.amount }
{
    let Back { drained, race: _ } = back;
    board.reap(slot, drained, share);
    settle_reaped(alloc, board, job, slot);
}

// Waits for some child whose pipe was lost, and settles its slot. The stray pipe is of no such child.
fn reap_other<L: Launcher, W: Work, N: Name>(
    alloc: Global,
    board: &mut Board<L, W, N>,
    job: &W,
    stray: Back<L::Pipe, N>,
    share: &mut Share<N>,
)
    requires key { W.key job.now ≡ N.terms.key }
    requires free { IsFree N.terms.first.starts board.old.events board.old.race (L.Pipe.number stray.drained.pipe) }
    requires whole { share.old.parts ≡ N.parts }
    requires amount { 0 < share.old.amount }
    ensures parts { share.new.parts ≡ share.old.parts }
    ensures amount { share.new.amount + 1 ≡ share.old.amount }
{
    board.count(share);
    let Back { drained, race: _ } = stray;
    match first_up(board.race().slots.as_slice()) {
        Some(slot) => {
            board.reap_lost(slot, drained, share);
            settle_reaped(alloc, board, job, slot);
        }
        None => unreachable!(),
    }
}

// The first slot that has a child that wasn't waited for.
fn first_up(slots: &[SlotState]) -> Option<u32>
    requires { length slots.now ≤ 64 }
    ensures { MatchOption result (up_of slots.now ≡ 0) (λ slot. IsUp (slice_get slots.now slot)) }
{
    for (slot, state) in slots.iter().enumerate() {
        if let SlotState::Running | SlotState::Overdue = state {
            return Some(slot as u32);
        }
    }
    None
}
