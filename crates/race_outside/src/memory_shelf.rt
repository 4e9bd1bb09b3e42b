ghost use Rattle.std.specs.Prelude.{◌≡◌, ◌≢◌, ◌⊎◌, ◌+◌, ◌<◌, ◌≤◌, ◌^◌, [], take, IsTrue, OnOk, OnErr, Some, None, Err};
ghost use Rattle.race_core.specs.Standings.{is_listed};
ghost use Rattle.race_outside.specs.Causes.{Rose, one_more};

use crate::held::find;
use crate::listed::is_listed_call;
use crate::{FetchFault, Held, Shelf};
use std::marker::Model;
use text_kit::{Bytes, NoMemory, Rows};

/// Files in memory. The listed fetches fail, and of the others those whose name isn't held. Fetches are
/// counted from 0, refused ones too.
#[derive(Debug, Drop)]
pub struct MemoryShelf {
    files: Rows<Held>,
    fails: Rows<u64>,
    calls: u64,
    faults: u64,
}

impl Model for MemoryShelf {
    ghost use Rattle.race_outside.specs.Memory.{MemoryFiles};

    ghost Value = { MemoryFiles };

    ghost view = { λ s. record { files = s.files; fails = s.fails; calls = s.calls; faults = s.faults } };
}

impl MemoryShelf {
    /// Holds these files, of several with one name the first, and fails at the fetches with these numbers.
    pub fn begin(files: Rows<Held>, fails: Rows<u64>) -> MemoryShelf
        ensures { result ≡ record { files = files; fails = fails; calls = 0; faults = 0 } }
    {
        MemoryShelf {
            files,
            fails,
            calls: 0,
            faults: 0,
        }
    }

    fn fail(&mut self, into: &mut Bytes) -> Result<(), FetchFault>
        ensures fault { result ≡ Err FetchFault.Failed }
        ensures empty { into.new ≡ [] }
        ensures later { self.old.faults ≤ self.new.faults }
        ensures counted { self.new ≡ record self.old { faults = one_more self.old.faults } }
    {
        into.clear();
        self.faults = self.faults.saturating_add(1);
        Err(FetchFault::Failed)
    }
}

/// Puts the first `limit + 1` bytes in the place of `into`.
pub(crate) fn lend_first(bytes: &Bytes, limit: u64, into: &mut Bytes) -> Result<(), FetchFault>
    requires { limit < 2 ^ 32 }
    ensures ok { OnOk result (into.new ≡ take (limit + 1) bytes.now) }
    ensures err { OnErr result (into.new ≡ []) }
    ensures cause { result ≢ Err FetchFault.Failed }
{
    into.clear();
    let many = bytes.len().min(limit as usize + 1);
    match into.append(&bytes.as_slice()[..many]) {
        Ok(()) => Ok(()),
        Err(NoMemory) => Err(FetchFault::NoMemory),
    }
}

impl Shelf for MemoryShelf {
    ghost use Rattle.std.proofs.Common.{rules};
    ghost use Rattle.race_outside.specs.Shelves.{files_of, is_none_listed, Fetched, Begun, Lacks};

    ghost held = { λ s. Some (files_of s.files) };

    ghost sure = { λ s. is_none_listed s.fails };

    ghost faults = { λ s. s.faults };

    ghost sure_tells = { Prim.search rules };

    fn fetch(&mut self, name: &str, limit: u64, into: &mut Bytes) -> Result<(), FetchFault>
        requires { limit < 2 ^ 32 }
        ensures fetched { OnOk result (Fetched (Some (files_of self.old.files)) name.now limit into.new) }
        ensures begun { OnErr result (Begun (Some (files_of self.old.files)) name.now limit into.new) }
        ensures listed { IsTrue (is_listed self.old.calls self.old.fails) → result ≡ Err FetchFault.Failed }
        ensures absent { files_of self.old.files name.now ≡ None → result ≡ Err FetchFault.Failed }
        ensures no_other { result ≡ Err FetchFault.Failed → IsTrue (is_listed self.old.calls self.old.fails) ⊎ (files_of self.old.files name.now ≡ None) }
        ensures cause { result ≡ Err FetchFault.Failed → Rose self.old.faults self.new.faults }
        ensures later { self.old.faults ≤ self.new.faults }
        ensures same_files { self.new.files ≡ self.old.files }
        ensures same_fails { self.new.fails ≡ self.old.fails }
    {
        let call = self.calls;
        self.calls = call.saturating_add(1);
        if is_listed_call(call, &self.fails) {
            return self.fail(into);
        }
        match find(&self.files, name.as_bytes()) {
            Some(bytes) => lend_first(bytes, limit, into),
            None => self.fail(into),
        }
    }
}
