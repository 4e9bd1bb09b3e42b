//! Unit clauses as a tree of the words that their literals are, by which it is told whether one of them subsumes a clause.
#![tactic(auto)]

mod following;
mod growing;
mod token;
mod tree;

pub use token::{Edge, Token};
pub use tree::UnitTree;

#[cfg(test)]
mod tests;
