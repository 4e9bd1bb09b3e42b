//! The child prover: reads a problem, searches for a refutation of its clauses, and prints the proof.
#![tactic(auto)]

mod answering;
mod child_end;
mod input;
mod proving;
mod replying;
mod splitting;
mod words;

pub use child_end::ChildEnd;
pub use proving::prove_bytes;
pub use replying::child;
