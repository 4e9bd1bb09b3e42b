ghost use Rattle.std.specs.Prelude.{◌≡◌, ◌≤◌, ◌<◌, [], length};
ghost use Rattle.race_outside.specs.Causes.{Rose};
ghost use Rattle.race_run.specs.Drains.{HasRead};
ghost use Rattle.race_run.specs.inner.Reading.{Adds, Moved};

use race_board::{DrainEnd, Drained};
use race_outside::{Chunk, Pipe};
use std::alloc::Global;
use text_kit::{Bytes, NoMemory};

/// So many bytes of a pipe are read at most: 4 MiB and one, so that it shows where there are more.
pub(crate) const MOST: usize = 4_194_305;

/// So many bytes are asked for at once.
const CHUNK: usize = 65_536;

/// Reads a pipe to its end, or as far as it is read: at most 4 MiB and one byte.
///
/// `Failed` comes only where the pipe failed in this call, `Long` exactly where so many bytes were read as
/// are read at most. At `NoMemory` the bytes that were read last are lost.
pub fn drain<P: Pipe>(alloc: Global, pipe: P) -> Drained<P>
    requires unread { P.left pipe ≡ (P.told pipe).whole }
    ensures number { P.number result.pipe ≡ P.number pipe }
    ensures told { P.told result.pipe ≡ P.told pipe }
    ensures read { HasRead (P.told pipe).whole (P.left result.pipe) result.bytes result.end }
    ensures later { P.faults pipe ≤ P.faults result.pipe }
    ensures cause { result.end ≡ DrainEnd.Failed → Rose (P.faults pipe) (P.faults result.pipe) }
{
    let mut pipe = pipe;
    let mut bytes = Bytes::begin(alloc);
    let end = read_all(&mut pipe, &mut bytes);
    let pipe_faults = pipe.fault_count();
    Drained {
        pipe,
        bytes,
        pipe_faults,
        end,
    }
}

// Reads until the pipe ends, or no more is read of it.
fn read_all<P: Pipe>(pipe: &mut P, bytes: &mut Bytes) -> DrainEnd
    requires begin { bytes.old ≡ [] }
    requires unread { P.left pipe.old ≡ (P.told pipe.old).whole }
    ensures number { P.number pipe.new ≡ P.number pipe.old }
    ensures told { P.told pipe.new ≡ P.told pipe.old }
    ensures read { Moved (P.told pipe.old).whole (P.left pipe.new) bytes.new result }
    ensures later { P.faults pipe.old ≤ P.faults pipe.new }
    ensures cause { result ≡ DrainEnd.Failed → Rose (P.faults pipe.old) (P.faults pipe.new) }
{
    let mut chunk = [0u8; CHUNK];
    while bytes.len() < MOST {
        let room = (MOST - bytes.len()).min(CHUNK);
        if let Some(end) = read_more(pipe, &mut chunk[..room], bytes) {
            return end;
        }
    }
    DrainEnd::Long
}

// Reads once, and appends what came. `None`: there may be more.
fn read_more<P: Pipe>(pipe: &mut P, into: &mut [u8], bytes: &mut Bytes) -> Option<DrainEnd>
    requires { 0 < length into.old }
    ensures number { P.number pipe.new ≡ P.number pipe.old }
    ensures told { P.told pipe.new ≡ P.told pipe.old }
    ensures read { Adds (length into.old) (P.left pipe.old) (P.left pipe.new) bytes.old bytes.new result }
    ensures later { P.faults pipe.old ≤ P.faults pipe.new }
    ensures cause { result ≡ Some DrainEnd.Failed → Rose (P.faults pipe.old) (P.faults pipe.new) }
{
    match pipe.read(into) {
        Chunk::Got(many) => match bytes.append(&into[..many]) {
            Ok(()) => None,
            Err(NoMemory) => Some(DrainEnd::NoMemory),
        },
        Chunk::End => Some(DrainEnd::Ended),
        Chunk::Failed => Some(DrainEnd::Failed),
    }
}
