ghost use Rattle.std.specs.Prelude.{◌≡◌, [], nat_eq, slice_get, OnOk};
ghost use Rattle.indexmap.specs.IndexSet.{insert_key};

use indexmap::IndexSet;
use std::alloc::Global;
use std::marker::Model;
use text_kit::NoMemory;

/// Numbers in the order in which they were met first, which contracts see as their list.
#[derive(Drop)]
pub struct Met {
    set: IndexSet<u64>,
}

impl Model for Met {
    ghost use Rattle.std.specs.Prelude.{List, ℕ};
    ghost use Rattle.std.specs.Coded.{coded_list, coded_ℕ};

    ghost Value = { List ℕ };

    ghost coded = { coded_list coded_ℕ };

    ghost view = { λ m. m.set.keys };
}

impl Met {
    /// No numbers. It takes no memory.
    pub fn begin(alloc: Global) -> Met
        ensures { result ≡ [] }
    {
        Met {
            set: IndexSet::new(alloc),
        }
    }

    /// Appends a number that isn't there yet.
    pub fn meet(&mut self, k: u64) -> Result<(), NoMemory>
        ensures { OnOk result (self.new ≡ insert_key nat_eq self.old k) }
    {
        match self.set.insert(k) {
            Ok(_) => Ok(()),
            Err(_) => Err(NoMemory),
        }
    }

    /// The number at a place, where there is one.
    pub fn at(&self, place: u64) -> Option<u64>
        ensures { result ≡ slice_get self.now place }
    {
        match self.set.get_index(place as usize) {
            Some(k) => Some(*k),
            None => None,
        }
    }
}
