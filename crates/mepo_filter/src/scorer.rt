ghost use Rattle.std.specs.Prelude.{◌≡◌, ◌≤◌, ◌<◌, ◌^◌, All, length, map, IfOk, ⊤};
ghost use Rattle.std.specs.Thread.{IsSync};
ghost use Rattle.mepo_filter.specs.inner.Tables.{is_in, weight_in};
ghost use Rattle.mepo_filter.specs.inner.Places.{IsWithin, scored_at};

use crate::constant_set::ConstantSet;
use crate::placing::{Place, Scored};
use crate::score::score_of;
use crate::weights::Weights;
use rayon::prelude::*;
use std::alloc::Global;
use std::thread::Threads;
use text_kit::NoMemory;

/// The score of the fact at a place.
fn scored(flat: &[u32], weights: &Weights, relevant: &ConstantSet, place: &Place) -> Scored
    requires { IsWithin (length flat.now) place.now }
    ensures { result ≡ scored_at (weight_in weights.now) (is_in relevant.now) flat.now place.now }
{
    let Place { start, end, .. } = *place;
    Scored {
        place: *place,
        score: score_of(&flat[start as usize..end as usize], weights, relevant),
    }
}

/// Something that computes the scores of the facts that a round begins with.
pub(crate) trait Scorer {
    /// Whether it may be called.
    ghost is_ready: { Self → Type 0 };

    /// The facts with their scores, in their order.
    fn scores(
        &self,
        flat: &[u32],
        weights: &Weights,
        relevant: &ConstantSet,
        left: &[Place],
    ) -> Result<Vec<Scored>, NoMemory>
        requires ready { is_ready self.now }
        requires within { All (IsWithin (length flat.now)) left.now }
        ensures { IfOk result (λ v. v.items ≡ map (scored_at (weight_in weights.now) (is_in relevant.now) flat.now) left.now) };
}

fn one_by_one(
    alloc: Global,
    flat: &[u32],
    weights: &Weights,
    relevant: &ConstantSet,
    left: &[Place],
) -> Result<Vec<Scored>, NoMemory>
    requires { All (IsWithin (length flat.now)) left.now }
    ensures { IfOk result (λ v. v.items ≡ map (scored_at (weight_in weights.now) (is_in relevant.now) flat.now) left.now) }
{
    let mut all = Vec::new(alloc);
    for place in left {
        match all.push(scored(flat, weights, relevant, place)) {
            Ok(()) => {}
            Err(_) => return Err(NoMemory),
        }
    }
    Ok(all)
}

/// Computes them one by one.
#[derive(Drop)]
pub(crate) struct OneByOne {
    pub alloc: Global,
}

impl Scorer for OneByOne {
    ghost is_ready = { λ _. ⊤ };

    fn scores(
        &self,
        flat: &[u32],
        weights: &Weights,
        relevant: &ConstantSet,
        left: &[Place],
    ) -> Result<Vec<Scored>, NoMemory> {
        one_by_one(self.alloc, flat, weights, relevant, left)
    }
}

/// With fewer constants than this a round takes less time than the start of its threads.
const WORTH_THREADS: u64 = 1 << 20;

/// The number of constants that a round looks at.
fn constants_in(left: &[Place]) -> u64 {
    let mut count = 0u64;
    for place in left {
        count = count.saturating_add(u64::from(place.end.saturating_sub(place.start)));
    }
    count
}

/// Computes them side by side in threads, where there are enough.
#[derive(Drop)]
pub(crate) struct SideBySide<'r, R> {
    pub rt: &'r R,
    pub alloc: Global,
}

impl<'r, R: Threads + Sync> Scorer for SideBySide<'r, R> {
    ghost is_ready = { λ _. IsSync R.row };

    fn scores(
        &self,
        flat: &[u32],
        weights: &Weights,
        relevant: &ConstantSet,
        left: &[Place],
    ) -> Result<Vec<Scored>, NoMemory> {
        if constants_in(left) < WORTH_THREADS {
            return one_by_one(self.alloc, flat, weights, relevant, left);
        }
        let all = left
            .par_iter()
            .map(
                |place: &Place| -> Scored
                    requires { IsWithin (length flat.now) place.now }
                    ensures { result ≡ scored_at (weight_in weights.entry.now) (is_in relevant.entry.now) flat.entry.now place.now }
                { scored(flat, weights, relevant, place) },
            )
            .collect(self.rt, self.alloc);
        match all {
            Ok(all) => Ok(all),
            Err(_) => Err(NoMemory),
        }
    }
}
