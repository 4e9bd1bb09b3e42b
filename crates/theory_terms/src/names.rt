ghost use Rattle.std.specs.Prelude.{◌≡◌, [], ◌∷◌, ◌++◌, ◌<◌, None, length, IfOk, IfSome, OnOk, OnErr};
ghost use Rattle.theory_terms.specs.Words.{place};

use std::alloc::Global;
use std::collections::BTreeMap;
use std::marker::Model;
use text_kit::{Bytes, NoMemory, Rows};

/// The most names that are held.
const MOST: usize = 0xffff_fffe;

/// Names of a text in the order in which they came, which contracts see as their list. A name is found in logarithmic
/// time, whatever the names are: a tree of them has no bad case.
#[derive(Drop)]
pub struct Names<'t> {
    list: Rows<&'t [u8]>,
    places: BTreeMap<Vec<u8>, u32>,
}

impl<'t> Model for Names<'t> {
    ghost use Rattle.std.specs.Prelude.{List, ℕ, map, length, ◌≡◌, ◌≤◌};
    ghost use Rattle.std.specs.BTreeMap.{get_by};
    ghost use Rattle.std.specs.Cmp.Lexicographic.{slice_cmp};
    ghost use Rattle.std.specs.Ordering.{nat_cmp};
    ghost use Rattle.theory_terms.specs.Words.{place};
    ghost use Rattle.std.specs.Coded.{coded_list, coded_ℕ};

    ghost Value = { List (List ℕ) };

    ghost coded = { coded_list (coded_list coded_ℕ) };

    ghost view = { λ n. map (λ k. k.now) n.list };

    ghost invariant = { λ n. (length n.list ≤ 0xffff_fffe) × ((name : List ℕ) → get_by (λ k. slice_cmp nat_cmp name k.items) n.places ≡ place name (map (λ k. k.now) n.list)) };
}

impl<'t> Names<'t> {
    /// No names. It takes no memory.
    pub fn begin(alloc: Global) -> Names<'t>
        ensures { result ≡ [] }
    {
        Names {
            list: Rows::begin(alloc),
            places: BTreeMap::new(alloc),
        }
    }

    /// The number of names.
    pub fn len(&self) -> u32
        ensures { result ≡ length self.now }
    {
        self.list.len() as u32
    }

    /// The place of a name, where it is there.
    pub fn place(&self, name: &[u8]) -> Option<u32>
        ensures place { result ≡ place name.now self.now }
        ensures small { IfSome result (λ i. i < 0xffff_fffe) }
    {
        self.places.get(name).copied()
    }

    /// Appends a name. A refused call leaves the names as they were.
    pub fn add(&mut self, name: &'t [u8]) -> Result<(), NoMemory>
        requires { place name.now self.old ≡ None }
        ensures ok { OnOk result (self.new ≡ self.old ++ name.now ∷ []) }
        ensures err { OnErr result (self.new ≡ self.old) }
    {
        let place = self.list.len();
        if place >= MOST {
            return Err(NoMemory);
        }
        let Ok(key) = Vec::from_slice(self.list.allocator(), name) else {
            return Err(NoMemory);
        };
        self.list.push(name)?;
        match self.places.insert(key, place as u32) {
            Ok(_) => Ok(()),
            Err(_) => {
                let _ = self.list.pop();
                Err(NoMemory)
            }
        }
    }

    /// The names as lists of their own.
    pub fn copies(&self, alloc: Global) -> Result<Rows<Bytes>, NoMemory>
        ensures { IfOk result (λ rows. rows ≡ self.now) }
    {
        let mut rows = Rows::begin(alloc);
        for name in self.list.as_slice() {
            rows.push(Bytes::from_slice(alloc, *name)?)?;
        }
        Ok(rows)
    }
}
