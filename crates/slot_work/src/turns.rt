ghost use Rattle.std.specs.Prelude.{◌≡◌, ◌+◌, false};
ghost use Rattle.tstp_read.specs.Used.{Leaves, IsAnswer};
ghost use Rattle.fact_minimise.specs.Minimal.{IsMinimal};
ghost use Rattle.fact_minimise.specs.Sublists.{IsSublist};
ghost use Rattle.slot_work.specs.Answers.{Answers};
ghost use Rattle.slot_work.specs.inner.Finding.{Finds};
ghost use Rattle.slot_work.specs.inner.Tasks.{IsSlot, AreUsed, IsMinimising, StandsAt, IsNext, Begins, is_over, left_at, most_turns, beside, outcome_of_fault};

use crate::proving::proven;
use crate::searches::Searches;
use crate::slot::Slot;
use crate::stage::{Next, Stage};
use crate::using::used_facts;
use fact_minimise::{MinTurn, Minimise};
use goal_search::{ClauseFault, Ended, search};
use hol_kernel::Proven;
use race_core::Outcome;
use std::alloc::Global;
use text_kit::{Bytes, NoMemory, Rows};
use tstp_read::{UsedFault, used};

/// The outcome of bytes with this fault.
fn of_fault(fault: UsedFault) -> Outcome<Proven>
    ensures { result ≡ outcome_of_fault fault }
{
    match fault {
        UsedFault::NoStatus => Outcome::NoStatus,
        UsedFault::NoProof => Outcome::NoProof,
        UsedFault::BadText { at } => Outcome::BadText { at },
        UsedFault::NoMemory => Outcome::NoMemory,
    }
}

/// Begins to minimise facts that are found.
fn minimising(alloc: Global, facts: Rows<u32>) -> Next
    ensures { Begins facts result }
{
    match facts.copy(alloc) {
        Ok(used) => Next::Goes(Stage::Minimising {
            used,
            minimise: Minimise::begin(facts),
        }),
        Err(NoMemory) => Next::Ends(Outcome::NoMemory),
    }
}

/// The search with the used facts.
fn search_used(alloc: Global, slot: &Slot, facts: Rows<u32>) -> Next
    requires slot { IsSlot slot.now }
    requires used { AreUsed slot.now facts }
    ensures { IsNext slot.now (most_turns (beside slot.now) + 2) result }
{
    match search(alloc, &slot.env, facts.as_slice(), slot.budget) {
        Ok(ended) => match ended {
            Ended::Found(_) => minimising(alloc, facts),
            Ended::Saturated => Next::Ends(Outcome::Saturated),
            Ended::Spent => Next::Ends(Outcome::Spent),
        },
        Err(fault) => match fault {
            ClauseFault::TooLarge => unreachable!(),
            ClauseFault::NoMemory => Next::Ends(Outcome::NoMemory),
        },
    }
}

/// The search with the facts that these leaves name.
fn search_leaves(alloc: Global, slot: &Slot, leaves: &[Bytes]) -> Next
    requires slot { IsSlot slot.now }
    requires answer { IsAnswer slot.now.bytes (Leaves leaves.now) }
    ensures { IsNext slot.now (most_turns (beside slot.now) + 2) result }
{
    match used_facts(alloc, slot.theory, slot.goal, &slot.env, leaves) {
        Ok(facts) => search_used(alloc, slot, facts),
        Err(NoMemory) => Next::Ends(Outcome::NoMemory),
    }
}

/// The first turn: it reads the bytes and ends one search.
fn first(slot: &Slot) -> Next
    requires { IsSlot slot.now }
    ensures { IsNext slot.now (most_turns (beside slot.now) + 2) result }
{
    let alloc = slot.bytes.allocator();
    match used(alloc, slot.bytes.as_slice()) {
        Ok(leaves) => search_leaves(alloc, slot, leaves.as_slice()),
        Err(fault) => Next::Ends(of_fault(fault)),
    }
}

/// The outcome where these of the used facts are minimal.
fn proof_outcome(slot: &Slot, used: &Rows<u32>, kept: &Rows<u32>) -> Outcome<Proven>
    requires slot { IsSlot slot.now }
    requires used { AreUsed slot.now used.now }
    requires found { Finds slot.now.env slot.now.budget used.now }
    requires sublist { IsSublist kept.now used.now }
    requires minimal { IsMinimal (Finds slot.now.env slot.now.budget) kept.now }
    ensures { Answers slot.now.theory.now slot.now.goal slot.now.budget slot.now.bytes result }
{
    let alloc = slot.bytes.allocator();
    match kept.copy(alloc) {
        Ok(names) => match proven(alloc, &slot.env, names, slot.budget) {
            Ok(proof) => Outcome::Proved(proof),
            Err(NoMemory) => Outcome::NoMemory,
        },
        Err(NoMemory) => Outcome::NoMemory,
    }
}

/// A further turn: one search of the minimiser, or the proof from what it has kept.
fn again(slot: &Slot, used: Rows<u32>, mut minimise: Minimise) -> Next
    requires slot { IsSlot slot.now }
    requires stands { IsMinimising slot.now used minimise }
    ensures { IsNext slot.now (minimise.left + 1) result }
{
    let mut searches = Searches {
        alloc: slot.bytes.allocator(),
        env: &slot.env,
        budget: slot.budget,
    };
    match minimise.turn(&mut searches) {
        MinTurn::More => Next::Goes(Stage::Minimising { used, minimise }),
        MinTurn::Done => Next::Ends(proof_outcome(slot, &used, minimise.kept())),
        MinTurn::NoMemory => Next::Ends(Outcome::NoMemory),
    }
}

/// What the next turn of a stage comes to.
pub fn next(slot: &Slot, stage: Stage) -> Next
    requires slot { IsSlot slot.now }
    requires stands { StandsAt slot.now stage }
    requires open { is_over stage ≡ false }
    ensures { IsNext slot.now (left_at (beside slot.now) stage) result }
{
    match stage {
        Stage::Begun => first(slot),
        Stage::Minimising { used, minimise } => again(slot, used, minimise),
        Stage::Over => unreachable!(),
    }
}
