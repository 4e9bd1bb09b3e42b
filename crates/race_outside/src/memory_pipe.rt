ghost use Rattle.std.specs.Prelude.{◌≡◌, ◌≤◌, ◌<◌, length, IsTrue, Some};
ghost use Rattle.race_core.specs.Standings.{is_listed};
ghost use Rattle.race_outside.specs.Causes.{Rose, one_more};
ghost use Rattle.race_outside.specs.Pipes.{Reads};

use crate::flow::Poured;
use crate::listed::is_listed_call;
use crate::{Chunk, Pipe};
use std::marker::Model;
use text_kit::{Bytes, Rows};

/// The pipe from a child in memory. The listed reads fail, and no others. Reads are counted from 0,
/// refused ones too; each gives as many bytes as fit.
#[derive(Debug, Drop)]
pub struct MemoryPipe {
    number: u64,
    flow: Poured,
    fails: Rows<u64>,
    calls: u64,
    faults: u64,
}

impl Model for MemoryPipe {
    ghost use Rattle.race_outside.specs.Memory.{MemoryFlow};

    ghost Value = { MemoryFlow };

    ghost view = { λ p. record { number = p.number; flow = p.flow; fails = p.fails; calls = p.calls; faults = p.faults } };
}

impl MemoryPipe {
    pub(crate) fn begin(number: u64, bytes: Bytes, fails: Rows<u64>) -> MemoryPipe
        ensures { result ≡ record { number = number; flow = record { whole = bytes; left = bytes }; fails = fails; calls = 0; faults = 0 } }
    {
        MemoryPipe {
            number,
            flow: Poured::begin(bytes),
            fails,
            calls: 0,
            faults: 0,
        }
    }
}

impl Pipe for MemoryPipe {
    ghost use Rattle.std.proofs.Common.{rules};
    ghost use Rattle.race_outside.specs.Memory.{told_by};
    ghost use Rattle.race_outside.specs.inner.Laws.{sound-tells, sound-unfailed};

    ghost number = { λ p. p.number };

    ghost faults = { λ p. p.faults };

    ghost told = { told_by };

    ghost left = { λ p. Some p.flow.left };

    ghost sound_tells = { sound-tells };

    ghost sound_unfailed = { sound-unfailed };

    fn id(&self) -> u64 {
        self.number
    }

    fn fault_count(&self) -> u64 {
        self.faults
    }

    fn read(&mut self, into: &mut [u8]) -> Chunk
        requires { 0 < length into.old }
        ensures bytes { Reads (Some self.old.flow.left) (Some self.new.flow.left) into.new result }
        ensures listed { IsTrue (is_listed self.old.calls self.old.fails) → result ≡ Chunk.Failed }
        ensures unlisted { result ≡ Chunk.Failed → IsTrue (is_listed self.old.calls self.old.fails) }
        ensures counted { result ≡ Chunk.Failed → self.new.faults ≡ one_more self.old.faults }
        ensures cause { result ≡ Chunk.Failed → Rose self.old.faults self.new.faults }
        ensures later { self.old.faults ≤ self.new.faults }
        ensures same_number { self.new.number ≡ self.old.number }
        ensures same_told { told_by self.new ≡ told_by self.old }
    {
        let call = self.calls;
        self.calls = call.saturating_add(1);
        if is_listed_call(call, &self.fails) {
            self.faults = self.faults.saturating_add(1);
            return Chunk::Failed;
        }
        let many = self.flow.pour(into);
        if many == 0 {
            return Chunk::End;
        }
        Chunk::Got(many)
    }
}
