ghost use Rattle.std.specs.Prelude.{◌≡◌, [], ◌∷◌, ◌++◌, ℕ, IfOk, OnOk, OnErr, Contains};
ghost use Rattle.fo_terms.specs.declared.term.FoTerm.{FoTerm};
ghost use Rattle.fo_index.specs.Fronts.{front, HaveOneInstance};
ghost use Rattle.fo_index.specs.Candidates.{AreMet};

use crate::Filed;
use crate::ascending::ascending;
use crate::filing::file;
use crate::front::front_of;
use crate::meeting::met;
use crate::shelves::Shelves;
use fo_terms::FoTerm;
use std::alloc::Global;
use std::marker::Model;
use text_kit::{NoMemory, Rows};

/// Ids under keys. Contracts see the list of ids in the order in which they were inserted, each with the front of
/// its key: the symbols before its first variable, of which 16 count.
///
/// It is the part of a discrimination tree (McCune 1992) that lies above the first variables, as two ordered maps. A
/// key takes at most 18 look-ups; a term takes at most 17, and the time that its candidates take.
#[derive(Drop)]
pub struct Index {
    filed: Rows<Filed>,
    whole: Shelves,
    begun: Shelves,
}

impl Model for Index {
    ghost use Rattle.std.specs.Prelude.{List};
    ghost use Rattle.fo_index.specs.declared.filed.Filed.{Filed};
    ghost use Rattle.fo_index.specs.inner.Shelved.{AreShelved};

    ghost Value = { List Filed };

    ghost view = { λ x. x.filed };

    ghost invariant = { λ x. AreShelved x.whole x.begun x.filed };
}

impl Index {
    /// An index without ids. It takes no memory.
    pub fn begin(alloc: Global) -> Index
        ensures { result ≡ [] }
    {
        Index {
            filed: Rows::begin(alloc),
            whole: Shelves::begin(alloc),
            begun: Shelves::begin(alloc),
        }
    }

    /// Files an id under a key. A refused call leaves the index as it was.
    pub fn insert(&mut self, key: &FoTerm, id: u32) -> Result<(), NoMemory>
        ensures ok { OnOk result (self.new ≡ self.old ++ (record { front = front key.now; id = id }) ∷ []) }
        ensures err { OnErr result (self.new ≡ self.old) }
    {
        let alloc = self.filed.allocator();
        let front = front_of(alloc, key)?;
        let place = self.filed.len() as u64;
        file(
            alloc,
            &mut self.whole,
            &mut self.begun,
            front.as_slice(),
            place,
        )?;
        self.filed.push(Filed { front, id })?;
        Ok(())
    }

    /// The ids whose keys may be unified with the term once variables are renamed apart, ascending and each once.
    ///
    /// It holds the ids of all keys that can be, and no others but those of keys whose front begins the term's, or is
    /// begun by it. Whether a candidate's key can be unified with the term is for the caller to find out.
    pub fn candidates(&self, alloc: Global, t: &FoTerm) -> Result<Rows<u32>, NoMemory>
        ensures met { IfOk result (λ ids. AreMet self.now (front t.now) ids) }
        ensures unifiable { IfOk result (λ ids. (key : FoTerm) (id : ℕ) → Contains self.now (record { front = front key; id = id }) → HaveOneInstance key t.now → Contains ids id) }
    {
        let front = front_of(alloc, t)?;
        let ids = met(
            alloc,
            &self.filed,
            &self.whole,
            &self.begun,
            front.as_slice(),
        )?;
        Ok(ascending(ids))
    }
}
