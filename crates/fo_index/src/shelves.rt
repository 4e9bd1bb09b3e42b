ghost use Rattle.std.specs.Prelude.{◌≡◌, ◌<◌, ℕ, List, Some, vec_len};
ghost use Rattle.std.specs.BTreeMap.{get_by};
ghost use Rattle.std.specs.Cmp.Lexicographic.{slice_cmp};
ghost use Rattle.std.specs.Ordering.{nat_cmp};

use std::collections::BTreeMap;
use text_kit::Rows;

/// Lists of places, each under a list of symbols, which is found in logarithmic time whatever the symbols are.
#[derive(Drop)]
pub(crate) struct Shelves {
    pub(crate) numbers: BTreeMap<Vec<u64>, u64>,
    pub(crate) lists: Vec<Rows<u64>>,
    ghost known: { (key : List ℕ) (n : ℕ) → get_by (λ k. slice_cmp nat_cmp key k.items) numbers ≡ Some n → n < vec_len lists },
}
