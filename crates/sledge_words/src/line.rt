use crate::Command;
use text_kit::{Bytes, Rows};

/// A command with its arguments and options. What a command doesn't have holds its default.
#[derive(Debug, Drop)]
pub struct Line {
    pub command: Command,
    /// The places of the arguments among the words, in their order; repeated facts with each of their places.
    pub places: Rows<u32>,
    /// The number that `drill` and `gen` are asked for; 0 for the others.
    pub number: u32,
    pub slices: u32,
    pub workers: u32,
    /// Picks of a search.
    pub budget: u32,
    pub slice: u32,
    pub size: u32,
    /// Milliseconds, where a limit is given.
    pub timeout: Option<u64>,
    /// The program that is started for a slot.
    pub prover: Bytes,
    /// Whether the proof is to be printed.
    pub proof: bool,
}
