ghost use Rattle.std.specs.Prelude.{◌≡◌, ◌<◌, ◌≤◌, [], length, Some, IfOk};
ghost use Rattle.race_outside.specs.Causes.{Rose};
ghost use Rattle.fol_prover.specs.inner.Reading.{Adds, HasEnded, IsInput, heard};

use race_outside::{Chunk, Pipe};
use std::alloc::Global;
use text_kit::{Bytes, NoMemory};

/// The most bytes of an input: 64 MiB.
pub(crate) const MOST: usize = 67_108_864;

/// So many bytes are asked for at once.
const CHUNK: usize = 65_536;

/// Why no more is read.
#[derive(Clone, Copy, Debug, PartialEq, Eq)]
pub(crate) enum Ending {
    /// the input has no more bytes
    Ended,
    /// the input failed
    Failed,
    /// more bytes came than are read at most
    Long,
}

/// What an input gave.
#[derive(Debug, Drop)]
pub(crate) enum Input {
    /// all its bytes
    Whole(Bytes),
    /// more than are read at most
    TooLong,
    /// it failed
    Failed,
}

/// Reads once, and appends what came. `None`: there may be more.
fn read_more<P: Pipe>(
    pipe: &mut P,
    into: &mut [u8],
    bytes: &mut Bytes,
) -> Result<Option<Ending>, NoMemory>
    requires { 0 < length into.old }
    ensures read { IfOk result (Adds (P.left pipe.old) (P.left pipe.new) bytes.old bytes.new) }
    ensures later { P.faults pipe.old ≤ P.faults pipe.new }
    ensures cause { IfOk result (λ o. o ≡ Some Ending.Failed → Rose (P.faults pipe.old) (P.faults pipe.new)) }
{
    match pipe.read(into) {
        Chunk::Got(many) => {
            bytes.append(&into[..many])?;
            Ok(None)
        }
        Chunk::End => Ok(Some(Ending::Ended)),
        Chunk::Failed => Ok(Some(Ending::Failed)),
    }
}

/// Reads until the input ends, or no more is read of it.
fn read_all<P: Pipe>(pipe: &mut P, bytes: &mut Bytes) -> Result<Ending, NoMemory>
    requires { bytes.old ≡ [] }
    ensures { IfOk result (HasEnded (heard (P.left pipe.old) (P.faults pipe.old) (P.faults pipe.new)) bytes.new) }
{
    let mut chunk = [0u8; CHUNK];
    while bytes.len() <= MOST {
        if let Some(end) = read_more(pipe, &mut chunk, bytes)? {
            return Ok(end);
        }
    }
    Ok(Ending::Long)
}

/// Reads an input to its end, or as far as it is read.
pub(crate) fn read_input<P: Pipe>(alloc: Global, pipe: &mut P) -> Result<Input, NoMemory>
    ensures { IfOk result (IsInput (heard (P.left pipe.old) (P.faults pipe.old) (P.faults pipe.new))) }
{
    let mut bytes = Bytes::begin(alloc);
    match read_all(pipe, &mut bytes)? {
        Ending::Ended => Ok(Input::Whole(bytes)),
        Ending::Failed => Ok(Input::Failed),
        Ending::Long => Ok(Input::TooLong),
    }
}
