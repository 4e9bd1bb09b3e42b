//! What waits for a search, in the order in which it came: the lightest is picked, or the oldest.
#![tactic(auto)]

mod ages;
mod buckets;
mod entry;
mod ring;
mod steps;
#[cfg(test)]
mod tests;

pub use entry::Entry;
pub use ring::Ring;
pub use steps::Steps;
