ghost use Rattle.std.specs.Prelude.{◌≡◌, ◌++◌, ℕ, List, OnOk, Contains};
ghost use Rattle.fo_index.specs.inner.Numbered.{kept};
ghost use Rattle.fo_index.specs.inner.Shelved.{Grows, IsShelved};

use crate::shelves::Shelves;
use std::alloc::Global;
use text_kit::NoMemory;

// Keeps a place under each beginning of a front.
fn file_begun(alloc: Global, begun: &mut Shelves, front: &[u64], place: u64) -> Result<(), NoMemory>
    ensures grows { Grows begun.old begun.new }
    ensures filed { OnOk result ((key rest : List ℕ) → front.now ≡ key ++ rest → Contains (kept begun.new key) place) }
{
    for length in 0..front.len() {
        begun.add(alloc, &front[..length], place)?;
    }
    begun.add(alloc, front, place)?;
    Ok(())
}

/// Keeps a place under a whole front, and under each beginning of it. What is kept stays, also where the call is
/// refused.
pub(crate) fn file(
    alloc: Global,
    whole: &mut Shelves,
    begun: &mut Shelves,
    front: &[u64],
    place: u64,
) -> Result<(), NoMemory>
    ensures whole { Grows whole.old whole.new }
    ensures begun { Grows begun.old begun.new }
    ensures filed { OnOk result (IsShelved whole.new begun.new front.now place) }
{
    whole.add(alloc, front, place)?;
    file_begun(alloc, begun, front, place)
}
