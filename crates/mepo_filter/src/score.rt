ghost use Rattle.std.specs.Prelude.{◌≡◌, ◌<◌, ◌≤◌, ◌^◌, length};
ghost use Rattle.mepo_filter.specs.Scores.{score, reaches};
ghost use Rattle.mepo_filter.specs.inner.Tables.{is_in, weight_in};

use crate::constant_set::ConstantSet;
use crate::weights::Weights;

/// The part `top / bottom` that the relevant constants of a fact have of all, by weight.
#[derive(Clone, Copy, Debug, Drop)]
pub(crate) struct Score {
    pub top: u64,
    pub bottom: u64,
}

/// What each constant counts that isn't relevant.
const IRRELEVANT: u64 = 16;

/// The parts of the whole in which a mark is counted.
pub(crate) const WHOLE: u64 = 1 << 20;

/// The score of a fact by its distinct constants.
pub(crate) fn score_of(constants: &[u32], weights: &Weights, relevant: &ConstantSet) -> Score
    requires { length constants.now < 2 ^ 32 }
    ensures { result ≡ score (weight_in weights.now) (is_in relevant.now) constants.now }
{
    if constants.is_empty() {
        return Score { top: 1, bottom: 1 };
    }
    let mut top = 0;
    let mut others = 0;
    for constant in constants {
        if relevant.has(*constant) {
            top += weights.at(*constant);
        } else {
            others += IRRELEVANT;
        }
    }
    Score {
        top,
        bottom: top + others,
    }
}

impl Score {
    /// Whether the score is at least the mark.
    pub fn reaches(self, mark: u64) -> bool
        ensures { result ≡ reaches mark self }
    {
        u128::from(mark) * u128::from(self.bottom) <= u128::from(self.top) * u128::from(WHOLE)
    }
}
