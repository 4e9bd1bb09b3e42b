//! Reads what a child printed: whether it found a proof, and which leaves the proof rests on.
#![tactic(auto)]

mod answer;
mod lines;
mod reach;
mod sources;
mod statements;
mod tokens;

pub use answer::{UsedFault, one_answer, used};
