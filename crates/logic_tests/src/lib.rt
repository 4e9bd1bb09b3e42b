//! Tests of terms, kernel, derived rules, lifting, clauses and models: what they call is proved once, in its own crate.
#![tactic(auto)]

#[cfg(test)]
mod clauses;
#[cfg(test)]
mod clausify;
#[cfg(test)]
mod derived;
#[cfg(test)]
mod encoding;
#[cfg(test)]
mod kernel;
#[cfg(test)]
mod lifting;
#[cfg(test)]
mod models;
#[cfg(test)]
mod refutations;
