//! How far a word goes on as one of some words, or as a number.
#![tactic(auto)]

mod number;
mod shared;

pub use number::{Number, read_number};
pub use shared::shared_with;

#[cfg(test)]
mod tests;
