ghost use Rattle.std.specs.Prelude.{◌≡◌, ◌+◌, ◌<◌, ◌≤◌, [], ◌∷◌, ◌++◌, All, ◌↔◌, IsTrue, IfOk, OnOk, OnErr, MatchOption};
ghost use Rattle.clause_ring.specs.Picks.{TakesLightest};

use crate::ages::Ages;
use crate::buckets::{Bucket, are_empty, empty_buckets, first_filled};
use crate::{Entry, Steps};
use std::alloc::Global;
use std::marker::Model;
use std::sync::ledger::Ledger;
use text_kit::NoMemory;

/// So many weights there are, from 0 on.
const WEIGHTS: usize = 513;

/// What waits, each entry in the bucket of its weight and in the list by age. Contracts see one list of
/// entries, in the order in which they were pushed.
///
/// The picks take no memory. A pick of the lightest looks at the buckets in turn, a pick of the oldest at the
/// front of the list by age; what was picked there before is let go then, each entry once.
#[derive(Debug, Drop)]
pub struct Ring {
    buckets: Vec<Bucket>,
    ages: Ages,
}

impl Model for Ring {
    ghost use Rattle.std.specs.Prelude.{List};
    ghost use Rattle.clause_ring.specs.declared.entry.Entry.{Entry};
    ghost use Rattle.clause_ring.specs.inner.Ages.{waiting};
    ghost use Rattle.clause_ring.specs.inner.Rings.{IsRing};

    ghost Value = { List Entry };

    ghost view = { λ r. waiting r.ages.aged };

    ghost invariant = { λ r. IsRing r.buckets.items r.ages };
}

impl Ring {
    /// A ring in which nothing waits.
    pub fn begin(alloc: Global) -> Result<Ring, NoMemory>
        ensures { IfOk result (λ ring. ring ≡ []) }
    {
        let buckets = empty_buckets(alloc, WEIGHTS)?;
        Ok(Ring {
            buckets,
            ages: Ages::begin(alloc),
        })
    }

    /// Whether nothing waits. It looks at the buckets in turn, up to the first that holds an entry.
    pub fn is_empty(&self) -> bool
        ensures { IsTrue result ↔ (self.now ≡ []) }
    {
        are_empty(self.buckets.as_slice())
    }

    /// One more waits. A refused push leaves the ring as it was.
    pub fn push(&mut self, entry: Entry) -> Result<(), NoMemory>
        requires light { entry.weight ≤ 512 }
        requires newest { All (λ other. other.number < entry.number) self.old }
        ensures ok { OnOk result (self.new ≡ self.old ++ entry ∷ []) }
        ensures err { OnErr result (self.new ≡ self.old) }
    {
        let place = self.ages.next();
        self.buckets[entry.weight as usize].push(place)?;
        match self.ages.push(entry) {
            Ok(()) => Ok(()),
            Err(NoMemory) => {
                self.buckets[entry.weight as usize].undo();
                Err(NoMemory)
            }
        }
    }

    /// Takes out the lightest entry, and of those that weigh as much the one of the least number; `None`
    /// exactly where nothing waits. A step is one bucket looked at.
    pub fn pick_light<L: Ledger>(&mut self, steps: &mut Steps<L>) -> Option<Entry>
        ensures picked { MatchOption result ((self.old ≡ []) × (self.new ≡ [])) (λ entry. TakesLightest self.old entry self.new) }
        ensures steps { steps.new ≤ steps.old + 513 }
    {
        let weight = first_filled(self.buckets.as_slice(), steps)?;
        let place = self.buckets[weight].pop()?;
        Some(self.ages.take(place))
    }

    /// Takes out the first entry; `None` exactly where nothing waits. A step is one bucket looked at.
    pub fn pick_old<L: Ledger>(&mut self, steps: &mut Steps<L>) -> Option<Entry>
        ensures picked { MatchOption result ((self.old ≡ []) × (self.new ≡ [])) (λ entry. self.old ≡ entry ∷ self.new) }
        ensures steps { steps.new ≤ steps.old + 1 }
    {
        match self.ages.pop() {
            Some(entry) => {
                steps.tick();
                let _ = self.buckets[entry.weight as usize].pop();
                Some(entry)
            }
            None => None,
        }
    }
}
