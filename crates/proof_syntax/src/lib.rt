//! What a proof text is: its grammar, the one text of a proof, and the first fault.
#![tactic(auto)]

mod fault;
mod file;
mod laws;

pub use fault::{PartFault, ProofFault};
pub use file::ProofFile;
pub use laws::one_answer;
