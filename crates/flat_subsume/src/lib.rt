//! Clauses as cells that are tested for subsuming others, without any allocation.
#![tactic(auto)]

mod covering;
mod subsumer;

pub use subsumer::{MOST_STEPS, Subsumer};

#[cfg(test)]
mod tests;
