ghost use Rattle.std.specs.Prelude.{◌≡◌, Some, true};

use crate::flow::Poured;
use crate::{Chunk, Pipe};
use std::marker::Model;
use text_kit::Bytes;

/// The pipe from a child in memory that never fails. Each read gives as many bytes as fit.
#[derive(Debug, Drop)]
pub struct SurePipe {
    number: u64,
    flow: Poured,
}

impl Model for SurePipe {
    ghost use Rattle.race_outside.specs.Memory.{SureFlow};

    ghost Value = { SureFlow };

    ghost view = { λ p. record { number = p.number; flow = p.flow } };
}

impl SurePipe {
    pub(crate) fn begin(number: u64, bytes: Bytes) -> SurePipe
        ensures { result ≡ record { number = number; flow = record { whole = bytes; left = bytes } } }
    {
        SurePipe {
            number,
            flow: Poured::begin(bytes),
        }
    }
}

impl Pipe for SurePipe {
    ghost use Rattle.std.proofs.Common.{rules};

    ghost number = { λ p. p.number };

    ghost faults = { λ p. 0 };

    ghost told = { λ p. record { whole = Some p.flow.whole; sound = true } };

    ghost left = { λ p. Some p.flow.left };

    ghost sound_tells = { Prim.search rules };

    ghost sound_unfailed = { Prim.search rules };

    fn id(&self) -> u64 {
        self.number
    }

    fn fault_count(&self) -> u64 {
        0
    }

    fn read(&mut self, into: &mut [u8]) -> Chunk {
        let many = self.flow.pour(into);
        if many == 0 {
            return Chunk::End;
        }
        Chunk::Got(many)
    }
}
