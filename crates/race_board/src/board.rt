ghost use Rattle.std.specs.Prelude.{◌≡◌, ◌≤◌, ◌<◌, ◌+◌, ℕ, Some, None, true, false, All, length, map, slice_get, option_map, is_some, IfOk, IfErr, IfSome, IsTrue};
ghost use Rattle.std.specs.Bool.{OnTrue, OnFalse};
ghost use Rattle.std.specs.Option.{option_copied};
ghost use Rattle.race_core.specs.Steps.{after, is_open};
ghost use Rattle.race_core.specs.Histories.{id_of};
ghost use Rattle.race_core.specs.Ran.{Ran, running, killed_by, ids_of};
ghost use Rattle.race_core.specs.Verdicts.{verdict_of};
ghost use Rattle.race_core.specs.declared.event.Event.TheVariants as event;
ghost use Rattle.race_core.specs.declared.outcome.Verdict.TheVariants as verdict;
ghost use Rattle.race_core.specs.declared.slot.SlotState.{SlotState};
ghost use Rattle.race_core.specs.declared.slot.SlotState.TheVariants.{Waiting, Settled};
ghost use Rattle.race_core.specs.declared.slot.SlotEnd.{SlotEnd};
ghost use Rattle.race_outside.specs.Causes.{Rose};
ghost use Rattle.race_outside.specs.Launchers.{Waits, Ticks};
ghost use Rattle.race_outside.specs.Pipes.{IsFresh};
ghost use Rattle.race_board.specs.Ends.{nothing, only_stray, skipped_end, IsOfRace, IsFree, AreRight};
ghost use Rattle.race_board.specs.Boards.{Begins, up_of, is_settled, unended};
ghost use Rattle.race_board.specs.Calls.{Enters, changed, with_outcome, with_kept, KillsAll, TicksAndKills, launch_event, Launches, ends_after_launch, started, handed, kept_of, MaySettle, IsUp, kept_at};

use crate::entered::enter;
use crate::kills::{kill_at, kill_running};
use crate::opened::{ends_of, history_of, ids_of, until_of};
use crate::slot_ends::{end_at, is_kept, keep_at, own_kept, skipped_end, stray_kept};
use crate::{Drained, Launched, Name};
use race_core::{Event, Kept, Order, Outcome, Race, SlotEnd};
use race_outside::{Launcher, Pipe, StartFault, Work};
use std::alloc::Global;
use std::marker::{Model, PhantomData};
use std::sync::ledger::{Blank, Book, Share};
use text_kit::Rows;

/// The launcher, the history and the slots of the race of that name.
///
/// Its type keeps that the history is legal and makes the race that the board shows; that the launcher
/// did since the beginning what the history says; and that what each slot keeps and how each settled
/// slot ended is right. Each call but `begin` and `begin_timed` is at most one event and takes no memory.
#[derive(Drop)]
pub struct Board<L: Launcher, W: Work, N: Name> {
    launcher: L,
    race: Race,
    history: Vec<Event>,
    // Made at the beginning, so that the race ends without memory. An outcome counts once its slot is settled.
    ends: Vec<SlotEnd<W::Proof>>,
    ids: Rows<Option<u64>>,
    up: Book<N>,
    work: PhantomData<W>,
}

impl<L: Launcher, W: Work, N: Name> Model for Board<L, W, N> {
    ghost use Rattle.std.specs.Prelude.{◌≡◌, vec_capacity};
    ghost use Rattle.race_board.specs.Boards.{View};
    ghost use Rattle.race_board.specs.inner.Kept.{IsBoard};

    ghost Value = { View W.Proof };

    ghost view = { λ b. record { events = b.history.items; race = b.race; ends = b.ends.items; launcher = L.standing b.launcher } };

    ghost invariant = { λ b. IsBoard (W.answers N.terms.key) N.terms (record { events = b.history.items; race = b.race; ends = b.ends.items; launcher = L.standing b.launcher }) b.ids b.up.total (vec_capacity b.history) × (L.children b.launcher ≡ N.terms.children) };
}

impl<L: Launcher, W: Work, N: Name> Board<L, W, N> {
    /// A board on which each slot waits, of a race with no limit of time.
    ///
    /// `Err` is want of memory and hands the launcher back. All memory that the board will want is taken
    /// here. The share is the only one. The orders are 1 to 64.
    pub fn begin(
        alloc: Global,
        blank: Blank,
        launcher: L,
        orders: Rows<Order>,
    ) -> Result<(Board<L, W, N>, Share<N>), L>
        requires ledger { (blank.name ≡ N.name) × (blank.parts ≡ N.parts) }
        requires orders { orders ≡ N.terms.orders }
        requires few { (0 < length orders) × (length orders ≤ 64) }
        requires unlimited { N.terms.limit ≡ None }
        requires first { L.standing launcher ≡ N.terms.first }
        requires children { L.children launcher ≡ N.terms.children }
        ensures board { IfOk result (λ made. Begins N.terms made.0) }
        ensures share { IfOk result (λ made. (made.1.parts ≡ N.parts) × (made.1.amount ≡ 0)) }
        ensures back { IfErr result (λ back. back ≡ launcher) }
    {
        Board::begin_timed(alloc, blank, launcher, orders, None)
    }

    /// A board on which each slot waits. Where a limit of time is given, in milliseconds, the clock is read
    /// once, and the race ends so much later.
    ///
    /// `Err` is want of memory and hands the launcher back as it was. All memory that the board will want is
    /// taken here. The share is the only one. The orders are 1 to 64, and the limit is at most 600,000.
    pub fn begin_timed(
        alloc: Global,
        blank: Blank,
        launcher: L,
        orders: Rows<Order>,
        limit: Option<u64>,
    ) -> Result<(Board<L, W, N>, Share<N>), L>
        requires ledger { (blank.name ≡ N.name) × (blank.parts ≡ N.parts) }
        requires orders { orders ≡ N.terms.orders }
        requires few { (0 < length orders) × (length orders ≤ 64) }
        requires limit { limit ≡ N.terms.limit }
        requires short { IfSome limit (λ milliseconds. milliseconds ≤ 600000) }
        requires first { L.standing launcher ≡ N.terms.first }
        requires children { L.children launcher ≡ N.terms.children }
        ensures board { IfOk result (λ made. Begins N.terms made.0) }
        ensures share { IfOk result (λ made. (made.1.parts ≡ N.parts) × (made.1.amount ≡ 0)) }
        ensures back { IfErr result (λ back. back ≡ launcher) }
    {
        let slots = orders.len() as u32;
        let Ok(mut race) = Race::begin(alloc, slots) else {
            return Err(launcher);
        };
        let Ok(history) = history_of(alloc, slots) else {
            return Err(launcher);
        };
        let Ok(ids) = ids_of(alloc, slots) else {
            return Err(launcher);
        };
        let Ok(ends) = ends_of(alloc, orders) else {
            return Err(launcher);
        };
        let mut launcher = launcher;
        race.until = until_of(&mut launcher, limit);
        let (up, share) = blank.open::<N>();
        let board = Board {
            launcher,
            race,
            history,
            ends,
            ids,
            up,
            work: PhantomData,
        };
        Ok((board, share))
    }

    /// The race that the history has made.
    pub fn race(&self) -> &Race
        ensures race { result.now ≡ self.now.race }
        ensures slots { length result.now.slots ≡ length N.terms.orders }
        ensures few { length result.now.slots ≤ 64 }
        ensures ends { length self.now.ends ≡ length N.terms.orders }
        ensures timed { is_some result.now.until ≡ is_some N.terms.limit }
    {
        &self.race
    }

    /// The id of a slot's child; `None` exactly where the slot was never launched.
    pub fn id_of(&self, slot: u32) -> Option<u64>
        ensures id { result ≡ id_of N.terms.first.starts self.now.events slot }
        ensures range { IfSome result (λ id. IsOfRace N.terms id) }
    {
        match self.ids.get(slot as usize) {
            Some(id) => *id,
            None => None,
        }
    }

    /// What a slot keeps of its child; `None` exactly where it waits, or its child wasn't waited for.
    pub fn kept(&self, slot: u32) -> Option<&Kept>
        ensures { option_copied result ≡ kept_at (slice_get self.now.race.slots slot) (slice_get self.now.ends slot) }
    {
        let state = self.race.state(slot)?;
        if !is_kept(state) {
            return None;
        }
        let end = self.ends.get(slot as usize)?;
        Some(&end.kept)
    }

    /// Starts the child of a waiting slot, in a race without a winner whose limit of time hasn't passed.
    ///
    /// `NoStart` comes only where the launcher failed, and `NoRoom` is want of memory.
    pub fn launch(&mut self, slot: u32, share: &mut Share<N>) -> Launched<L::Pipe>
        requires waiting { slice_get self.old.race.slots slot ≡ Some Waiting }
        requires open { is_open self.old.race ≡ true }
        requires part { 0 < share.old.parts }
        ensures event { Enters self.old self.new (launch_event slot result) }
        ensures launcher { Launches (slice_get N.terms.orders slot) self.old.launcher self.new.launcher result }
        ensures ends { self.new.ends ≡ ends_after_launch slot result self.old.ends }
        ensures pipe { IfSome (handed result) (λ pipe. IsFresh (L.Pipe.number pipe) (L.Pipe.faults pipe) (L.Pipe.told pipe) (L.Pipe.left pipe) self.old.launcher.starts (N.terms.children self.old.launcher.starts)) }
        ensures id { IfSome (handed result) (λ pipe. id_of N.terms.first.starts self.new.events slot ≡ Some (L.Pipe.number pipe)) }
        ensures range { IfSome (handed result) (λ pipe. IsOfRace N.terms (L.Pipe.number pipe)) }
        ensures cause { result ≡ Launched.NoStart → Rose self.old.launcher.faults self.new.launcher.faults }
        ensures share { share.new.amount ≡ share.old.amount + started result }
        ensures parts { share.new.parts ≡ share.old.parts }
    {
        let order = &self.ends[slot as usize].order;
        match self.launcher.start(&order.args, &order.problem) {
            Ok((id, pipe)) => {
                enter(&mut self.race, &mut self.history, Event::Launch(slot));
                self.ids.set(slot as usize, Some(id));
                self.up.add(share, 1);
                Launched::Up(pipe)
            }
            Err(fault) => match fault {
                StartFault::Failed => {
                    enter(&mut self.race, &mut self.history, Event::NoStart(slot));
                    end_at(&mut self.ends, slot, Outcome::NoStart);
                    Launched::NoStart
                }
                StartFault::NoMemory => {
                    enter(&mut self.race, &mut self.history, Event::NoRoom(slot));
                    end_at(&mut self.ends, slot, Outcome::NoMemory);
                    Launched::NoRoom
                }
            },
        }
    }

    /// Reads the clock once. From the limit of time on the race is late: the slots that run are overdue, and
    /// their children are killed. `false` comes exactly where the limit hasn't passed.
    pub fn expire(&mut self) -> bool
        requires limited { is_some self.old.race.until ≡ true }
        requires open { is_open self.old.race ≡ true }
        ensures event { OnTrue result (Enters self.old self.new (event.Expire self.new.launcher.last)) }
        ensures killed { OnTrue result (TicksAndKills (ids_of N.terms.first.starts self.old.events (running self.old.race)) self.old.launcher self.new.launcher) }
        ensures early { OnFalse result (IfSome self.old.race.until (λ until. self.new.launcher.last < until)) }
        ensures read { OnFalse result (Ticks self.new.launcher.last self.old.launcher self.new.launcher) }
        ensures events { OnFalse result (self.new.events ≡ self.old.events) }
        ensures race { OnFalse result (self.new.race ≡ self.old.race) }
        ensures ends { self.new.ends ≡ self.old.ends }
    {
        let now = self.launcher.now();
        match self.race.until {
            Some(until) if until <= now => {
                kill_running(&mut self.launcher, &self.race.slots, &self.ids);
                enter(&mut self.race, &mut self.history, Event::Expire(now));
                true
            }
            _ => false,
        }
    }

    /// Waits for the child of a slot, whose own pipe was drained. The slot keeps what was read.
    pub fn reap(&mut self, slot: u32, drained: Drained<L::Pipe>, share: &mut Share<N>)
        requires up { IsUp (slice_get self.old.race.slots slot) }
        requires own { id_of N.terms.first.starts self.old.events slot ≡ Some (L.Pipe.number drained.pipe) }
        requires told { L.Pipe.told drained.pipe ≡ N.terms.children (L.Pipe.number drained.pipe) }
        requires share { 0 < share.old.amount }
        ensures event { Enters self.old self.new (event.Reap slot) }
        ensures waits { Waits (L.Pipe.number drained.pipe) self.old.launcher self.new.launcher }
        ensures ends { self.new.ends ≡ changed (with_kept (kept_of drained)) slot self.old.ends }
        ensures share { share.new.amount + 1 ≡ share.old.amount }
        ensures parts { share.new.parts ≡ share.old.parts }
    {
        let Drained {
            pipe,
            bytes,
            pipe_faults,
            end,
        } = drained;
        self.launcher.reap(pipe.id());
        enter(&mut self.race, &mut self.history, Event::Reap(slot));
        keep_at(&mut self.ends, slot, own_kept(bytes, pipe_faults, end));
        self.up.sub(share, 1);
    }

    /// Waits for the child of a slot whose own pipe was lost. The slot keeps the id of a stray pipe of the
    /// race, which no slot has whose child wasn't waited for.
    pub fn reap_lost(&mut self, slot: u32, stray: Drained<L::Pipe>, share: &mut Share<N>)
        requires up { IsUp (slice_get self.old.race.slots slot) }
        requires range { IsOfRace N.terms (L.Pipe.number stray.pipe) }
        requires free { IsFree N.terms.first.starts self.old.events self.old.race (L.Pipe.number stray.pipe) }
        requires share { 0 < share.old.amount }
        ensures event { Enters self.old self.new (event.Reap slot) }
        ensures waits { (id : ℕ) → id_of N.terms.first.starts self.old.events slot ≡ Some id → Waits id self.old.launcher self.new.launcher }
        ensures ends { self.new.ends ≡ changed (with_kept (only_stray (L.Pipe.number stray.pipe))) slot self.old.ends }
        ensures share { share.new.amount + 1 ≡ share.old.amount }
        ensures parts { share.new.parts ≡ share.old.parts }
    {
        let Drained {
            pipe,
            bytes,
            pipe_faults: _,
            end: _,
        } = stray;
        let Some(id) = *self.ids.at(slot as usize) else {
            unreachable!();
        };
        self.launcher.reap(id);
        enter(&mut self.race, &mut self.history, Event::Reap(slot));
        let kept = stray_kept(bytes.allocator(), pipe.id());
        keep_at(&mut self.ends, slot, kept);
        self.up.sub(share, 1);
    }

    /// Settles a slot that was reaped, as is right for what it keeps. The first accepted proof wins, and the
    /// children of the slots that then run are killed.
    pub fn settle(&mut self, slot: u32, outcome: Outcome<W::Proof>)
        requires right { MaySettle (W.answers N.terms.key) (is_some self.old.race.winner) (slice_get self.old.race.slots slot) (slice_get self.old.ends slot) outcome }
        ensures event { Enters self.old self.new (event.Settle slot (verdict_of outcome)) }
        ensures killed { KillsAll (ids_of N.terms.first.starts self.old.events (killed_by self.old.race (event.Settle slot (verdict_of outcome)))) self.old.launcher self.new.launcher }
        ensures ends { self.new.ends ≡ changed (with_outcome outcome) slot self.old.ends }
    {
        let verdict = outcome.verdict();
        kill_at(&mut self.launcher, &self.race, &self.ids, slot, verdict);
        enter(
            &mut self.race,
            &mut self.history,
            Event::Settle(slot, verdict),
        );
        end_at(&mut self.ends, slot, outcome);
    }

    /// Settles a waiting slot that isn't started any more: behind a win, or since the limit of time has passed.
    pub fn skip(&mut self, slot: u32)
        requires waiting { slice_get self.old.race.slots slot ≡ Some Waiting }
        requires over { is_open self.old.race ≡ false }
        ensures event { Enters self.old self.new (event.Skip slot) }
        ensures launcher { self.new.launcher ≡ self.old.launcher }
        ensures ends { self.new.ends ≡ changed (with_outcome (skipped_end (is_some self.old.race.winner))) slot self.old.ends }
    {
        let won = self.race.winner.is_some();
        enter(&mut self.race, &mut self.history, Event::Skip(slot));
        end_at(&mut self.ends, slot, skipped_end(won));
    }

    /// Tells who holds all shares how many slots have a child that wasn't waited for. It changes nothing.
    pub fn count(&mut self, share: &mut Share<N>)
        requires whole { share.old.parts ≡ N.parts }
        ensures counted { up_of self.new.race.slots ≡ share.new.amount }
        ensures same { self.new ≡ self.old }
        ensures amount { share.new.amount ≡ share.old.amount }
        ensures parts { share.new.parts ≡ share.old.parts }
    {
        self.up.audit(share);
    }

    /// Hands out the launcher, the history, what each slot kept and how it ended, and the winner. Every slot
    /// is settled.
    pub fn finish(self) -> (L, Rows<Event>, Rows<SlotEnd<W::Proof>>, Option<u32>)
        requires settled { All (λ s. is_settled s ≡ true) self.race.slots }
        ensures events { result.1 ≡ self.events }
        ensures ends { result.2 ≡ self.ends }
        ensures winner { result.3 ≡ self.race.winner }
        ensures launcher { L.standing result.0 ≡ self.launcher }
        ensures same_children { L.children result.0 ≡ N.terms.children }
        ensures legal { after (length N.terms.orders) self.race.until result.1 ≡ Some self.race }
        ensures verdicts { map (λ end. Settled (verdict_of end.outcome)) result.2 ≡ self.race.slots }
        ensures ran { Ran N.terms.first (L.standing result.0) N.terms.orders N.terms.limit self.race.until result.1 }
        ensures orders { map (λ end. end.order) result.2 ≡ N.terms.orders }
        ensures right { AreRight (W.answers N.terms.key) N.terms self.race.until result.2 result.1 }
    {
        let Board {
            launcher,
            race,
            history,
            ends,
            ids: _,
            up: _,
            work: _,
        } = self;
        (
            launcher,
            Rows::from_vec(history),
            Rows::from_vec(ends),
            race.winner,
        )
    }
}
