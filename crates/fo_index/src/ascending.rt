ghost use Rattle.std.specs.Prelude.{ℕ, Contains};
ghost use Rattle.std.specs.List.Sorted.{IsStrictlyIncreasing};

use text_kit::Rows;

/// The same ids, ascending and each once.
pub(crate) fn ascending(ids: Vec<u32>) -> Rows<u32>
    ensures all { (id : ℕ) → Contains ids.items id → Contains result id }
    ensures only { (id : ℕ) → Contains result id → Contains ids.items id }
    ensures ascending { IsStrictlyIncreasing result }
{
    let mut ids = ids;
    ids.sort_unstable();
    ids.dedup();
    Rows::from_vec(ids)
}
