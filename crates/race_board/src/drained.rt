use crate::DrainEnd;
use race_outside::Pipe;
use std::marker::Model;
use text_kit::Bytes;

/// A pipe that was read to its end, or as far as it is read: at most 4 MiB and one byte.
///
/// Whoever makes one proves that these are the bytes of its pipe, and why there are no more.
#[derive(Drop)]
pub struct Drained<P: Pipe> {
    pub pipe: P,
    /// What was read.
    pub bytes: Bytes,
    /// How often the pipe has failed.
    pub pipe_faults: u64,
    pub end: DrainEnd,
}

impl<P: Pipe> Model for Drained<P> {
    ghost use Rattle.race_board.specs.Drains.{Reading, IsDrained};

    ghost Value = { Reading P };

    ghost view = { λ d. record { pipe = d.pipe; bytes = d.bytes; pipe_faults = d.pipe_faults; end = d.end } };

    ghost invariant = { λ d. IsDrained (P.told d.pipe) (P.left d.pipe) (P.faults d.pipe) d.bytes d.pipe_faults d.end };
}
