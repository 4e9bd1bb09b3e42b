//! An index of first-order terms: which keys can be unified with a term is told by the symbols before their first variables.
#![tactic(auto)]

mod ascending;
mod filed;
mod filing;
mod front;
mod index;
mod meeting;
mod shelves;
mod shelving;
#[cfg(test)]
mod tests;

pub use filed::Filed;
pub use index::Index;
