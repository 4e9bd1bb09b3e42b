ghost use Rattle.std.specs.Prelude.{◌≡◌, [], ◌+◌, ◌-◌, ◌<◌, ◌≤◌, length, MatchOption, MatchResult};
ghost use Rattle.clause_ring.specs.inner.Ages.{Comes, Leaves, IsOver, IsTaken};

use crate::Entry;
use std::alloc::Global;
use std::collections::VecDeque;
use std::marker::Model;
use text_kit::NoMemory;

/// An entry, and whether it still waits.
#[derive(Clone, Copy, Debug)]
pub(crate) struct Aged {
    pub(crate) entry: Entry,
    pub(crate) waits: bool,
}

/// The entries by age, each at its place: how many came before it. Those that were picked stay until all
/// that are older have left, so that a pick of another moves nothing.
#[derive(Debug, Drop)]
pub(crate) struct Ages {
    aged: VecDeque<Aged>,
    gone: u64,
}

impl Model for Ages {
    ghost use Rattle.std.specs.Prelude.{◌+◌, ◌<◌, ◌^◌};
    ghost use Rattle.std.specs.VecDeque.{deque_len};
    ghost use Rattle.clause_ring.specs.inner.Ages.{Line};

    ghost Value = { Line };

    ghost view = { λ a. record { gone = a.gone; aged = a.aged.items } };

    ghost invariant = { λ a. a.gone + deque_len a.aged < 2 ^ 64 };
}

impl Ages {
    /// None came yet. It takes no memory.
    pub(crate) fn begin(alloc: Global) -> Ages
        ensures gone { result.gone ≡ 0 }
        ensures none { result.aged ≡ [] }
    {
        Ages {
            aged: VecDeque::new(alloc),
            gone: 0,
        }
    }

    /// The place of the next that comes.
    pub(crate) fn next(&self) -> u64
        ensures { result ≡ self.now.gone + length self.now.aged }
    {
        self.gone + self.aged.len() as u64
    }

    /// One more came. It is refused too where 2^64 came before.
    pub(crate) fn push(&mut self, entry: Entry) -> Result<(), NoMemory>
        ensures { MatchResult result (λ _. Comes self.old entry self.new) (λ _. self.new ≡ self.old) }
    {
        if self.next() == u64::MAX {
            return Err(NoMemory);
        }
        match self.aged.push_back(Aged { entry, waits: true }) {
            Ok(()) => Ok(()),
            Err(_) => Err(NoMemory),
        }
    }

    /// The entry at a place, which waits no more.
    pub(crate) fn take(&mut self, place: u64) -> Entry
        requires came { self.old.gone ≤ place }
        requires stands { place < self.old.gone + length self.old.aged }
        ensures gone { self.new.gone ≡ self.old.gone }
        ensures taken { IsTaken self.old.aged (place - self.old.gone) result self.new.aged }
    {
        let at = (place - self.gone) as usize;
        let aged = &mut self.aged[at];
        aged.waits = false;
        aged.entry
    }

    /// The oldest that waits leaves, and with it all before it.
    pub(crate) fn pop(&mut self) -> Option<Entry>
        ensures { MatchOption result (IsOver self.old self.new) (λ e. Leaves self.old e self.new) }
    {
        'picked: while let Some(aged) = self.aged.pop_front() {
            self.gone += 1;
            if aged.waits {
                return Some(aged.entry);
            }
        }
        None
    }
}
