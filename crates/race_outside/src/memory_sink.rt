ghost use Rattle.std.specs.Prelude.{◌≡◌, ◌≤◌, ◌++◌, [], Some, IsTrue, IsOk, IsErr, OnOk, OnErr, false};
ghost use Rattle.race_core.specs.Standings.{is_listed};
ghost use Rattle.race_outside.specs.Causes.{Rose};
ghost use Rattle.race_outside.specs.Sinks.{TookSome};

use crate::listed::is_listed_call;
use crate::{Failed, Sink};
use std::alloc::Global;
use std::marker::Model;
use text_kit::{Bytes, Rows};

/// Keeps what it takes in memory. The listed puts fail, and of the others those that find no memory for a
/// piece that isn't empty. Where a put fails it takes nothing.
///
/// Puts are counted from 0, refused ones too.
#[derive(Debug, Drop)]
pub struct MemorySink {
    taken: Bytes,
    fails: Rows<u64>,
    calls: u64,
    faults: u64,
}

impl Model for MemorySink {
    ghost use Rattle.race_outside.specs.Memory.{MemoryText};

    ghost Value = { MemoryText };

    ghost view = { λ s. record { taken = s.taken; fails = s.fails; calls = s.calls; faults = s.faults } };
}

impl MemorySink {
    /// A sink that took nothing yet and fails at the puts with these numbers.
    pub fn begin(alloc: Global, fails: Rows<u64>) -> MemorySink
        ensures { result ≡ record { taken = []; fails = fails; calls = 0; faults = 0 } }
    {
        MemorySink {
            taken: Bytes::begin(alloc),
            fails,
            calls: 0,
            faults: 0,
        }
    }

    /// Lends what was taken.
    pub fn taken(&self) -> &Bytes
        ensures { result.now ≡ self.now.taken }
    {
        &self.taken
    }
}

// Appends a piece. For an empty one it takes no memory.
fn take_piece(taken: &mut Bytes, piece: &[u8]) -> Result<(), Failed>
    ensures ok { OnOk result (taken.new ≡ taken.old ++ piece.now) }
    ensures err { OnErr result (taken.new ≡ taken.old) }
    ensures empty { piece.now ≡ [] → IsOk result }
{
    if piece.is_empty() {
        return Ok(());
    }
    match taken.append(piece) {
        Ok(()) => Ok(()),
        Err(_) => Err(Failed),
    }
}

impl Sink for MemorySink {
    ghost taken = { λ s. Some s.taken };

    ghost faults = { λ s. s.faults };

    fn put(&mut self, piece: &[u8]) -> Result<(), Failed>
        ensures all { OnOk result (self.new.taken ≡ self.old.taken ++ piece.now) }
        ensures some { OnErr result (TookSome (Some self.old.taken) piece.now (Some self.new.taken)) }
        ensures none { OnErr result (self.new.taken ≡ self.old.taken) }
        ensures listed { IsTrue (is_listed self.old.calls self.old.fails) → IsErr result }
        ensures unlisted { is_listed self.old.calls self.old.fails ≡ false → piece.now ≡ [] → IsOk result }
        ensures cause { IsErr result → Rose self.old.faults self.new.faults }
        ensures later { self.old.faults ≤ self.new.faults }
    {
        let call = self.calls;
        self.calls = call.saturating_add(1);
        if is_listed_call(call, &self.fails) || take_piece(&mut self.taken, piece).is_err() {
            self.faults = self.faults.saturating_add(1);
            return Err(Failed);
        }
        Ok(())
    }
}
