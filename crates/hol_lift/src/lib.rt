//! Refutations of tagged clauses as steps of the kernel.
//!
//! A line of a refutation becomes the theorem of its clause (`line`): the parents' theorems are instantiated by what the
//! inference puts for their variables (`single`, `pair`), and then the inference is one on typed literals (`typed`).
#![tactic(auto)]

mod dropping;
mod joining;
mod lifting;
mod line;
mod pair;
mod paths;
mod reading;
mod single;
mod typed;
mod unifying;
mod wanting;

pub use lifting::lift;
