//! Tests of the engine and of what it makes of a child's bytes: what they call is proved once, in its own crate.
#![tactic(auto)]

#[cfg(test)]
mod answers;
#[cfg(test)]
mod lasting;
#[cfg(test)]
mod races;
#[cfg(test)]
mod replays;
