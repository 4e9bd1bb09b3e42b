//! Tests of unification, inferences, search and child prover: what they call is proved once, in its own crate.
#![tactic(auto)]

#[cfg(test)]
mod child;
#[cfg(test)]
mod clauses;
#[cfg(test)]
mod covers;
#[cfg(test)]
mod inferring;
#[cfg(test)]
mod marks;
#[cfg(test)]
mod names;
#[cfg(test)]
mod problems;
#[cfg(test)]
mod searching;
#[cfg(test)]
mod unifying;
