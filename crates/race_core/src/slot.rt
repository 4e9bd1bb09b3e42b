use crate::outcome::{Outcome, Verdict};
use text_kit::{Bytes, Rows};

/// How far a slot has come.
#[derive(Clone, Copy, Debug, PartialEq, Eq)]
pub enum SlotState {
    /// Not started.
    Waiting,
    /// Its child was started and wasn't waited for.
    Running,
    /// As `Running`, and the limit of time has passed since.
    Overdue,
    /// Its child was waited for.
    Reaped,
    /// Its child was waited for after the limit of time.
    ReapedLate,
    /// Over.
    Settled(Verdict),
}

/// What a slot's child is started with: its words, the program first, and the text of its problem.
#[derive(Debug, Drop)]
pub struct Order {
    pub args: Rows<Bytes>,
    pub problem: Bytes,
}

/// What is kept of the pipe from a slot's child.
#[derive(Debug, Drop)]
pub struct Kept {
    /// What the child printed, as far as it was read.
    pub bytes: Bytes,
    /// How often the pipe failed.
    pub pipe_faults: u64,
    /// Whether the reading ended for want of memory.
    pub short: bool,
    /// The id of the pipe that was handed in where the slot's own pipe was lost.
    pub stray: Option<u64>,
}

/// A slot as a finished race hands it out.
#[derive(Debug, Drop)]
pub struct SlotEnd<P> {
    pub order: Order,
    pub kept: Kept,
    pub outcome: Outcome<P>,
}
