//! From a refutation of a goal's inputs to the steps of the kernel that prove the goal from the facts.
#![tactic(auto)]

mod proving;
mod refuting;
mod sourcing;

pub use proving::prove;
