ghost use Rattle.std.specs.Prelude.{◌≡◌, ◌+◌, ◌≤◌, [], ◌∷◌, ◌++◌, ℕ, List, length, ◌↔◌, IsTrue, IfOk, IfNone, IfSome, OnOk, OnErr, MatchOption};
ghost use Rattle.clause_ring.specs.inner.Buckets.{AreEmpty, IsFirstFilled};

use crate::Steps;
use std::alloc::Global;
use std::collections::VecDeque;
use std::marker::Model;
use std::sync::ledger::Ledger;
use text_kit::NoMemory;

/// The places of the entries of one weight that wait, in their order.
#[derive(Debug, Drop)]
pub(crate) struct Bucket {
    places: VecDeque<u64>,
}

impl Model for Bucket {
    ghost use Rattle.std.specs.Prelude.{List, ℕ};
    ghost use Rattle.std.specs.Coded.{coded_list, coded_ℕ};

    ghost Value = { List ℕ };

    ghost coded = { coded_list coded_ℕ };

    ghost view = { λ b. b.places.items };
}

impl Bucket {
    pub(crate) fn begin(alloc: Global) -> Bucket
        ensures { result ≡ [] }
    {
        Bucket {
            places: VecDeque::new(alloc),
        }
    }

    pub(crate) fn push(&mut self, place: u64) -> Result<(), NoMemory>
        ensures ok { OnOk result (self.new ≡ self.old ++ place ∷ []) }
        ensures err { OnErr result (self.new ≡ self.old) }
    {
        match self.places.push_back(place) {
            Ok(()) => Ok(()),
            Err(_) => Err(NoMemory),
        }
    }

    /// Whether it holds no place.
    pub(crate) fn is_empty(&self) -> bool
        ensures { IsTrue result ↔ (self.now ≡ []) }
    {
        self.places.is_empty()
    }

    /// Takes the first place.
    pub(crate) fn pop(&mut self) -> Option<u64>
        ensures { MatchOption result ((self.old ≡ []) × (self.new ≡ [])) (λ place. self.old ≡ place ∷ self.new) }
    {
        self.places.pop_front()
    }

    /// Takes the last place away, where there is one.
    pub(crate) fn undo(&mut self)
        ensures { (place : ℕ) (before : List ℕ) → self.old ≡ before ++ place ∷ [] → self.new ≡ before }
    {
        let _ = self.places.pop_back();
    }
}

/// The first bucket that holds a place. Each look at a bucket is a step.
pub(crate) fn first_filled<L: Ledger>(buckets: &[Bucket], steps: &mut Steps<L>) -> Option<usize>
    ensures filled { IfSome result (λ weight. IsFirstFilled buckets.now weight) }
    ensures empty { IfNone result (AreEmpty buckets.now (length buckets.now)) }
    ensures steps { steps.new ≤ steps.old + length buckets.now }
{
    for (weight, bucket) in buckets.iter().enumerate() {
        steps.tick();
        if !bucket.is_empty() {
            return Some(weight);
        }
    }
    None
}

/// Whether no bucket holds a place.
pub(crate) fn are_empty(buckets: &[Bucket]) -> bool
    ensures { IsTrue result ↔ AreEmpty buckets.now (length buckets.now) }
{
    buckets.iter().all(|bucket| bucket.is_empty())
}

/// As many empty buckets.
pub(crate) fn empty_buckets(alloc: Global, many: usize) -> Result<Vec<Bucket>, NoMemory>
    ensures { IfOk result (λ buckets. (length buckets.items ≡ many) × AreEmpty buckets.items many) }
{
    let Ok(mut buckets) = Vec::with_capacity(alloc, many) else {
        return Err(NoMemory);
    };
    for made in 0..many {
        if buckets.push(Bucket::begin(alloc)).is_err() {
            return Err(NoMemory);
        }
    }
    Ok(buckets)
}
