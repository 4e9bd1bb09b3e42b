ghost use Rattle.std.specs.Prelude.{◌≡◌, [], ◌∷◌, ◌++◌, ◌<◌, None, length, position, IfSome, OnOk, OnErr};
ghost use Rattle.std.specs.Ordering.{is_eq};

use std::alloc::Global;
use std::collections::BTreeMap;
use std::marker::Model;
use text_kit::{NoMemory, Rows};

/// The most keys that are held.
const MOST: usize = 0xffff_fffe;

/// Keys that differ, in the order in which they came, which contracts see as their list. A key is found in logarithmic
/// time whatever the keys are, since a tree of them has no bad case.
#[derive(Drop)]
pub(crate) struct Keys<K: Ord> {
    list: Rows<K>,
    places: BTreeMap<K, u32>,
}

impl<K: Ord> Model for Keys<K> {
    ghost use Rattle.std.specs.Prelude.{List, ◌≡◌, ◌≤◌, length, position};
    ghost use Rattle.std.specs.Coded.{coded_list};
    ghost use Rattle.std.specs.Ordering.{is_eq};
    ghost use Rattle.std.specs.BTreeMap.{get};

    ghost Value = { List K };

    ghost coded = { coded_list K.code };

    ghost view = { λ s. s.list };

    ghost invariant = { λ s. (length s.list ≤ 0xffff_fffe) × ((q : K) → get K.cmp s.places q ≡ position (λ k. is_eq (K.cmp q k)) s.list) };
}

impl<K: Ord + Copy> Keys<K> {
    /// No keys. It takes no memory.
    pub(crate) fn begin(alloc: Global) -> Keys<K>
        ensures { result ≡ [] }
    {
        Keys {
            list: Rows::begin(alloc),
            places: BTreeMap::new(alloc),
        }
    }

    /// The number of keys.
    pub(crate) fn len(&self) -> u32
        ensures { result ≡ length self.now }
    {
        self.list.len() as u32
    }

    /// The keys.
    pub(crate) fn as_slice(&self) -> &[K]
        ensures { result.now ≡ self.now }
    {
        self.list.as_slice()
    }

    /// The place of a key, where it is there.
    pub(crate) fn place(&self, key: K) -> Option<u32>
        ensures place { result ≡ position (λ k. is_eq (K.cmp key k)) self.now }
        ensures small { IfSome result (λ i. i < 0xffff_fffe) }
    {
        self.places.get(&key).copied()
    }

    /// Appends a key. A refused call leaves the keys as they were.
    pub(crate) fn add(&mut self, key: K) -> Result<(), NoMemory>
        requires { position (λ k. is_eq (K.cmp key k)) self.old ≡ None }
        ensures ok { OnOk result (self.new ≡ self.old ++ key ∷ []) }
        ensures err { OnErr result (self.new ≡ self.old) }
    {
        let place = self.list.len();
        if place >= MOST {
            return Err(NoMemory);
        }
        self.list.push(key)?;
        match self.places.insert(key, place as u32) {
            Ok(_) => Ok(()),
            Err(_) => {
                let _ = self.list.pop();
                Err(NoMemory)
            }
        }
    }
}
