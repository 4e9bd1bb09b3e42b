ghost use Rattle.std.specs.Prelude.{◌≡◌, OnOk};
ghost use Rattle.std.specs.Ordering.{is_lt};
ghost use Rattle.mepo_filter.specs.Ranking.{is_above, ranked};

use crate::Chosen;
use std::cmp::Ordering;
use text_kit::NoMemory;

/// The greater score is less, so that it comes first. No bottom is 0; `max` tells the order of all pairs so.
fn compare(a: &Chosen, b: &Chosen) -> Ordering
    ensures { is_lt result ≡ is_above a.now b.now }
{
    let of_b = u128::from(b.top) * u128::from(a.bottom.max(1));
    let of_a = u128::from(a.top) * u128::from(b.bottom.max(1));
    of_b.cmp(&of_a)
}

/// Ranks the facts of a round, which come in order of place.
pub(crate) fn rank(chosen: &mut Vec<Chosen>) -> Result<(), NoMemory>
    ensures { OnOk result (chosen.new.items ≡ ranked chosen.old.items) }
{
    match chosen.sort_by(|a, b| compare(a, b)) {
        Ok(()) => Ok(()),
        Err(_) => Err(NoMemory),
    }
}
