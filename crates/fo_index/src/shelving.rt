ghost use Rattle.std.specs.Prelude.{◌≡◌, [], ◌∷◌, ℕ, List, IfOk, OnOk, Contains, None};
ghost use Rattle.std.specs.BTreeMap.{get_by};
ghost use Rattle.std.specs.Cmp.Lexicographic.{slice_cmp};
ghost use Rattle.std.specs.Ordering.{nat_cmp};
ghost use Rattle.fo_index.specs.inner.Numbered.{kept};
ghost use Rattle.fo_index.specs.inner.Shelved.{Grows};

use crate::shelves::Shelves;
use std::alloc::Global;
use std::collections::BTreeMap;
use text_kit::{NoMemory, Rows};

/// A list of one place.
fn list_with(alloc: Global, place: u64) -> Result<Rows<u64>, NoMemory>
    ensures { IfOk result (λ list. list ≡ place ∷ []) }
{
    let mut list = Rows::begin(alloc);
    list.push(place)?;
    Ok(list)
}

impl Shelves {
    /// No places. It takes no memory.
    pub(crate) fn begin(alloc: Global) -> Shelves
        ensures { (key : List ℕ) → kept result key ≡ [] }
    {
        Shelves {
            numbers: BTreeMap::new(alloc),
            lists: Vec::new(alloc),
        }
    }

    /// The places under these symbols.
    pub(crate) fn at(&self, key: &[u64]) -> &[u64]
        ensures { result.now ≡ kept self.now key.now }
    {
        match self.numbers.get(key) {
            Some(number) => self.lists[*number as usize].as_slice(),
            None => &[],
        }
    }

    /// Keeps a place under these symbols, under which there is none.
    fn open(&mut self, alloc: Global, key: &[u64], place: u64) -> Result<(), NoMemory>
        requires { get_by (λ k. slice_cmp nat_cmp key.now k.items) self.old.numbers ≡ None }
        ensures grows { Grows self.old self.new }
        ensures added { OnOk result (Contains (kept self.new key.now) place) }
    {
        let number = self.lists.len() as u64;
        let list = list_with(alloc, place)?;
        let Ok(key) = Vec::from_slice(alloc, key) else {
            return Err(NoMemory);
        };
        if self.lists.reserve(1).is_err() {
            return Err(NoMemory);
        }
        match self.numbers.insert(key, number) {
            Ok(_) => {
                self.lists.push_reserved(list);
                Ok(())
            }
            Err(_) => Err(NoMemory),
        }
    }

    /// Keeps a place under these symbols. What is kept stays, also where the call is refused.
    pub(crate) fn add(&mut self, alloc: Global, key: &[u64], place: u64) -> Result<(), NoMemory>
        ensures grows { Grows self.old self.new }
        ensures added { OnOk result (Contains (kept self.new key.now) place) }
    {
        match self.numbers.get(key).copied() {
            Some(number) => self.lists[number as usize].push(place),
            None => self.open(alloc, key, place),
        }
    }
}
