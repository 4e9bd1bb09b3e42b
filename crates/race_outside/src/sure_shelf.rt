ghost use Rattle.std.specs.Prelude.{◌≡◌, Some, true};

use crate::held::find;
use crate::memory_shelf::lend_first;
use crate::{FetchFault, Held, Shelf};
use std::marker::Model;
use text_kit::{Bytes, Rows};

/// Files in memory. A fetch of a name that isn't held fails, and nothing else does.
#[derive(Debug, Drop)]
pub struct SureShelf {
    files: Rows<Held>,
    faults: u64,
}

impl Model for SureShelf {
    ghost use Rattle.race_outside.specs.Memory.{SureFiles};

    ghost Value = { SureFiles };

    ghost view = { λ s. record { files = s.files; faults = s.faults } };
}

impl SureShelf {
    /// Holds these files; of several with one name the first.
    pub fn begin(files: Rows<Held>) -> SureShelf
        ensures { result ≡ record { files = files; faults = 0 } }
    {
        SureShelf { files, faults: 0 }
    }
}

impl Shelf for SureShelf {
    ghost use Rattle.std.proofs.Common.{rules};
    ghost use Rattle.race_outside.specs.Shelves.{files_of};

    ghost held = { λ s. Some (files_of s.files) };

    ghost sure = { λ s. true };

    ghost faults = { λ s. s.faults };

    ghost sure_tells = { Prim.search rules };

    fn fetch(&mut self, name: &str, limit: u64, into: &mut Bytes) -> Result<(), FetchFault> {
        match find(&self.files, name.as_bytes()) {
            Some(bytes) => lend_first(bytes, limit, into),
            None => {
                into.clear();
                self.faults = self.faults.saturating_add(1);
                Err(FetchFault::Failed)
            }
        }
    }
}
