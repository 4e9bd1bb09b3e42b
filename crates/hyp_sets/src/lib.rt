//! Finite sets of terms: what a sequent's hypotheses are.
#![tactic(auto)]

mod counting;
mod hyps;
mod joining;
mod laws;
mod looking;
#[cfg(test)]
mod tests;
mod tree;
mod uniting;

pub use hyps::{Hyps, tied};
pub use laws::is_same_is_equality;
