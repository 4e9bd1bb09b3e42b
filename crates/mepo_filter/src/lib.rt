//! Chooses the facts that are most relevant to a goal, in rounds, by the constants that they share with it.
#![tactic(auto)]

mod chosen;
mod constant_set;
mod counts;
mod gathering;
mod least;
mod naming;
mod placing;
mod rank;
mod round;
mod score;
mod scorer;
mod selection;
mod slice;
mod table;
#[cfg(test)]
mod tests;
mod weights;

pub use chosen::Chosen;
pub use least::taken_is_least;
pub use selection::{select, select_par};
pub use slice::{Slice, slice_of};
