//! Tests of the race over launchers and pipes in memory: what they call is proved once, in its own crate.
#![tactic(auto)]

#[cfg(test)]
mod races;
