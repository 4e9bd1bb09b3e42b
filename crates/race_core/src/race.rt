ghost use Rattle.std.specs.Prelude.{◌≡◌, ◌<◌, Some, None, IfOk, MatchBool, length, slice_get, map};
ghost use Rattle.std.specs.Bool.{OnTrue, OnFalse};
ghost use Rattle.race_core.specs.Steps.{step_of, started, reaped, settled, skipped, expired, is_open, is_due, may_settle, may_settle_late, winner_after, with_slot, with_verdict, overdue, fresh, after};

use crate::event::Event;
use crate::outcome::Verdict;
use crate::slot::SlotState;
use std::alloc::Global;
use text_kit::{NoMemory, Rows};

/// What the slots are, which of them won, and whether the limit of time has passed.
#[derive(Debug, Drop)]
pub struct Race {
    /// The state of each slot.
    pub slots: Rows<SlotState>,
    /// The slot of the first accepted proof.
    pub winner: Option<u32>,
    /// The moment from which on the limit of time has passed, where there is a limit.
    pub until: Option<u64>,
    /// Whether the limit of time has passed.
    pub late: bool,
}

impl Race {
    /// A race of that many waiting slots, with no limit of time.
    pub fn begin(alloc: Global, slots: u32) -> Result<Race, NoMemory>
        ensures { IfOk result (λ race. race ≡ fresh slots None) }
    {
        Race::begin_timed(alloc, slots, None)
    }

    /// A race of that many waiting slots, with a limit of time where one is given.
    pub fn begin_timed(alloc: Global, slots: u32, until: Option<u64>) -> Result<Race, NoMemory>
        ensures { IfOk result (λ race. race ≡ fresh slots until) }
    {
        let Ok(slots) = vec![in alloc; SlotState::Waiting; slots as usize] else {
            return Err(NoMemory);
        };
        Ok(Race {
            slots: Rows::from_vec(slots),
            winner: None,
            until,
            late: false,
        })
    }

    /// The race after these events of a race with no limit of time; `None` exactly where one of them
    /// isn't legal.
    pub fn replay(alloc: Global, slots: u32, events: &Rows<Event>) -> Result<Option<Race>, NoMemory>
        ensures { IfOk result (λ race. race ≡ after slots None events.now) }
    {
        Race::replay_timed(alloc, slots, None, events)
    }

    /// The race after these events; `None` exactly where one of them isn't legal.
    #[tactic(auto, using(crate::proofs::Runs::running))]
    pub fn replay_timed(
        alloc: Global,
        slots: u32,
        until: Option<u64>,
        events: &Rows<Event>,
    ) -> Result<Option<Race>, NoMemory>
        ensures { IfOk result (λ race. race ≡ after slots until events.now) }
    {
        let mut race = Race::begin_timed(alloc, slots, until)?;
        for event in events.as_slice() {
            if !race.step(*event) {
                return Ok(None);
            }
        }
        Ok(Some(race))
    }

    /// Makes the step of a legal event. It takes no memory.
    pub fn step(&mut self, e: Event) -> bool
        ensures legal { OnTrue result (step_of self.old e ≡ Some self.new) }
        ensures illegal { OnFalse result (step_of self.old e ≡ None) }
        ensures same { OnFalse result (self.new ≡ self.old) }
    {
        match e {
            Event::Launch(slot) => self.start(slot, SlotState::Running),
            Event::NoStart(slot) => self.start(slot, SlotState::Settled(Verdict::NoStart)),
            Event::NoRoom(slot) => self.start(slot, SlotState::Settled(Verdict::NoMemory)),
            Event::Reap(slot) => self.reap(slot),
            Event::Settle(slot, verdict) => self.settle(slot, verdict),
            Event::Skip(slot) => self.skip(slot),
            Event::Expire(moment) => self.expire(moment),
        }
    }

    /// The state of a slot, where the race has it.
    pub fn state(&self, slot: u32) -> Option<SlotState>
        ensures { result ≡ slice_get self.now.slots slot }
    {
        self.slots.get(slot as usize).copied()
    }

    /// Whether slots may still be started: there is no winner, and the limit of time hasn't passed.
    pub fn is_open(&self) -> bool
        ensures { result ≡ is_open self.now }
    {
        self.winner.is_none() && !self.late
    }

    fn start(&mut self, slot: u32, state: SlotState) -> bool
        ensures { let next = started self.old slot state (slice_get self.old.slots slot) in MatchBool result (next ≡ Some self.new) ((next ≡ None) × (self.new ≡ self.old)) }
    {
        match self.state(slot) {
            Some(SlotState::Waiting) => {
                if !self.is_open() {
                    return false;
                }
                self.put(slot, state);
                true
            }
            _ => false,
        }
    }

    fn reap(&mut self, slot: u32) -> bool
        ensures { let next = reaped self.old slot (slice_get self.old.slots slot) in MatchBool result (next ≡ Some self.new) ((next ≡ None) × (self.new ≡ self.old)) }
    {
        match self.state(slot) {
            Some(SlotState::Running) => {
                self.put(slot, SlotState::Reaped);
                true
            }
            Some(SlotState::Overdue) => {
                self.put(slot, SlotState::ReapedLate);
                true
            }
            _ => false,
        }
    }

    fn settle(&mut self, slot: u32, verdict: Verdict) -> bool
        ensures { let next = settled self.old slot verdict (slice_get self.old.slots slot) in MatchBool result (next ≡ Some self.new) ((next ≡ None) × (self.new ≡ self.old)) }
    {
        match self.state(slot) {
            Some(SlotState::Reaped) => {
                if !self.may_settle(verdict) {
                    return false;
                }
                self.end(slot, verdict);
                true
            }
            Some(SlotState::ReapedLate) => {
                if !self.may_settle_late(verdict) {
                    return false;
                }
                self.end(slot, verdict);
                true
            }
            _ => false,
        }
    }

    fn skip(&mut self, slot: u32) -> bool
        ensures { let next = skipped self.old slot (slice_get self.old.slots slot) in MatchBool result (next ≡ Some self.new) ((next ≡ None) × (self.new ≡ self.old)) }
    {
        match self.state(slot) {
            Some(SlotState::Waiting) => {
                if self.winner.is_some() {
                    self.put(slot, SlotState::Settled(Verdict::Cancelled));
                    return true;
                }
                if self.late {
                    self.put(slot, SlotState::Settled(Verdict::TimedOut));
                    return true;
                }
                false
            }
            _ => false,
        }
    }

    fn expire(&mut self, moment: u64) -> bool
        ensures { let next = expired self.old moment in MatchBool result (next ≡ Some self.new) ((next ≡ None) × (self.new ≡ self.old)) }
    {
        if !self.is_open() || !is_due(self.until, moment) {
            return false;
        }
        make_overdue(&mut self.slots);
        self.late = true;
        true
    }

    fn put(&mut self, slot: u32, state: SlotState)
        requires { slot < length self.old.slots }
        ensures { self.new ≡ with_slot self.old slot state }
    {
        self.slots.set(slot as usize, state);
    }

    fn end(&mut self, slot: u32, verdict: Verdict)
        requires { slot < length self.old.slots }
        ensures { self.new ≡ with_verdict self.old slot verdict }
    {
        self.winner = self.winner_after(slot, verdict);
        self.slots.set(slot as usize, SlotState::Settled(verdict));
    }

    // Whether a slot that was reaped in time may be settled so.
    fn may_settle(&self, verdict: Verdict) -> bool
        ensures { result ≡ may_settle self.now verdict }
    {
        match verdict {
            Verdict::NoStart | Verdict::TimedOut => false,
            Verdict::Cancelled => self.winner.is_some(),
            _ => true,
        }
    }

    // Whether a slot that was reaped after the limit of time may be settled so.
    fn may_settle_late(&self, verdict: Verdict) -> bool
        ensures { result ≡ may_settle_late self.now verdict }
    {
        match verdict {
            Verdict::TimedOut | Verdict::NoMemory => true,
            Verdict::Cancelled => self.winner.is_some(),
            _ => false,
        }
    }

    fn winner_after(&self, slot: u32, verdict: Verdict) -> Option<u32>
        ensures { result ≡ winner_after self.now.winner slot verdict }
    {
        match (self.winner, verdict) {
            (None, Verdict::Proved) => Some(slot),
            _ => self.winner,
        }
    }
}

fn is_due(until: Option<u64>, moment: u64) -> bool
    ensures { result ≡ is_due until moment }
{
    match until {
        None => false,
        Some(until) => until <= moment,
    }
}

fn overdue(state: SlotState) -> SlotState
    ensures { result ≡ overdue state }
{
    match state {
        SlotState::Running => SlotState::Overdue,
        _ => state,
    }
}

#[tactic(auto, using(crate::proofs::Mapped::mapping))]
fn make_overdue(slots: &mut Rows<SlotState>)
    ensures { slots.new ≡ map overdue slots.old }
{
    for at in 0..slots.len() {
        let state = overdue(*slots.at(at));
        slots.set(at, state);
    }
}
