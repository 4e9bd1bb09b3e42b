ghost use Rattle.std.specs.Prelude.{◌<◌, None, false, length};
ghost use Rattle.race_outside.specs.Pipes.{Reads};

use crate::{Chunk, Pipe};
use std::io::{ErrorKind, Read};

/// A stream of the machine, as its standard input. It tells no content. Its id is 0.
#[derive(Drop)]
pub struct StreamPipe<R: Read + Drop + Send> {
    reader: R,
    faults: u64,
}

impl<R: Read + Drop + Send> StreamPipe<R> {
    /// A pipe over the reader.
    pub fn begin(reader: R) -> StreamPipe<R> {
        StreamPipe { reader, faults: 0 }
    }
}

// One read. An interrupted one is made again.
fn read_some<R: Read>(reader: &mut R, into: &mut [u8]) -> Chunk
    requires { 0 < length into.old }
    ensures { Reads None None into.new result }
{
    for _ in 0..u64::MAX {
        match reader.read(into) {
            Ok(0) => return Chunk::End,
            Ok(count) => return Chunk::Got(count),
            Err(cause) => {
                if cause.kind() != ErrorKind::Interrupted {
                    return Chunk::Failed;
                }
            }
        }
    }
    Chunk::Failed
}

impl<R: Read + Drop + Send> Pipe for StreamPipe<R> {
    ghost use Rattle.std.proofs.Common.{rules};

    ghost number = { λ p. 0 };

    ghost faults = { λ p. p.faults };

    ghost told = { λ p. record { whole = None; sound = false } };

    ghost left = { λ p. None };

    ghost sound_tells = { Prim.search rules };

    ghost sound_unfailed = { Prim.search rules };

    fn id(&self) -> u64 {
        0
    }

    fn fault_count(&self) -> u64 {
        self.faults
    }

    fn read(&mut self, into: &mut [u8]) -> Chunk {
        let chunk = read_some(&mut self.reader, into);
        if chunk == Chunk::Failed {
            self.faults = self.faults.saturating_add(1);
        }
        chunk
    }
}
