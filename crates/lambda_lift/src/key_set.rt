ghost use Rattle.std.specs.Prelude.{◌≡◌, [], ◌∷◌, ◌++◌, None, nat_eq, position, OnOk, OnErr};
ghost use Rattle.std.specs.Cmp.Lexicographic.{pointwise};

use indexmap::IndexSet;
use std::alloc::Global;
use std::marker::Model;
use text_kit::NoMemory;

/// Lists of numbers, each once, in the order in which they came, which contracts see as their list. One is found by
/// hashing, whatever the number of them.
#[derive(Drop)]
pub struct KeySet {
    set: IndexSet<Vec<u64>>,
}

impl Model for KeySet {
    ghost use Rattle.std.specs.Prelude.{List, ℕ, map};
    ghost use Rattle.std.specs.Coded.{coded_list, coded_ℕ};

    ghost Value = { List (List ℕ) };

    ghost coded = { coded_list (coded_list coded_ℕ) };

    ghost view = { λ s. map (λ k. k.items) s.set.keys };
}

impl KeySet {
    /// No keys. It takes no memory.
    pub fn begin(alloc: Global) -> KeySet
        ensures { result ≡ [] }
    {
        KeySet {
            set: IndexSet::new(alloc),
        }
    }

    /// The place of a key, where it is there.
    pub fn place(&self, key: &Vec<u64>) -> Option<u64>
        ensures { result ≡ position (pointwise nat_eq key.now.items) self.now }
    {
        match self.set.get_index_of(key) {
            Some(at) => Some(at as u64),
            None => None,
        }
    }

    /// Appends a key that isn't there yet. A refused call leaves the keys as they were.
    pub fn add(&mut self, key: Vec<u64>) -> Result<(), NoMemory>
        requires { position (pointwise nat_eq key.items) self.old ≡ None }
        ensures ok { OnOk result (self.new ≡ self.old ++ key.items ∷ []) }
        ensures err { OnErr result (self.new ≡ self.old) }
    {
        match self.set.insert(key) {
            Ok(_) => Ok(()),
            Err(_) => Err(NoMemory),
        }
    }
}
