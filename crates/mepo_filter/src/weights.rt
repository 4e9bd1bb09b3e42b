ghost use Rattle.std.specs.Prelude.{◌≡◌, ◌≤◌, ℕ, map, IfOk};
ghost use Rattle.mepo_filter.specs.Scores.{weight};

use crate::counts::Counts;
use std::alloc::Global;
use text_kit::NoMemory;

/// What each constant weighs.
#[derive(Drop)]
pub(crate) struct Weights {
    pub weights: Vec<u8>,
}

/// What a constant weighs that occurs in so many facts.
fn weight(frequency: u32) -> u8
    ensures { result ≡ weight frequency }
{
    let digits = 32 - frequency.leading_zeros();
    (64 / (1 + digits)) as u8
}

fn weights_of(alloc: Global, counts: &[u32]) -> Result<Vec<u8>, NoMemory>
    ensures { IfOk result (λ w. w.items ≡ map weight counts.now) }
{
    match counts.iter().map(|n| weight(*n)).collect(alloc) {
        Ok(weights) => Ok(weights),
        Err(_) => Err(NoMemory),
    }
}

impl Weights {
    ghost use Rattle.mepo_filter.specs.inner.Tables.{count_in, weight_in};

    /// The weights by how often each constant was met.
    pub fn of(alloc: Global, counts: &Counts) -> Result<Weights, NoMemory>
        ensures { IfOk result (λ w. weight_in w ≡ (λ c. weight (count_in counts.now c))) }
    {
        let weights = weights_of(alloc, &counts.counts)?;
        Ok(Weights { weights })
    }

    /// What the constant weighs.
    pub fn at(&self, constant: u32) -> u64
        ensures value { result ≡ weight_in self.now constant }
        ensures small { result ≤ 255 }
    {
        match self.weights.get(constant as usize) {
            Some(weight) => u64::from(*weight),
            None => u64::from(weight(0)),
        }
    }
}
