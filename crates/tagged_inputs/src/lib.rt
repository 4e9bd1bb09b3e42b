//! A law alone: clauses that are typed over a table are tagged once they are encoded, and stand for what they were.
#![tactic(auto)]

mod laws;

pub use laws::clauses_are_encoded;
