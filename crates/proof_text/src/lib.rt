//! Prints a proof as its one text, which reads as the proof where its steps check and nest at most 4,096 deep.
#![tactic(auto)]

mod laws;
mod names;
mod printer;
mod steps;
mod terms;
mod types;

pub use laws::one_text;
pub use printer::print_proof;
