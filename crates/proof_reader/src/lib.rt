//! Reads proof texts, exact about the first fault.
#![tactic(auto)]

mod args;
mod lookup;
mod made;
mod reader;
mod rule;
mod start;
mod steps;
mod words;

pub use reader::read_proof;
