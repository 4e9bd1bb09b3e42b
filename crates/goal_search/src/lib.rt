//! The search for a goal with facts: what it is given, which are the clauses of the facts and of the goal over one table, encoded over
//! the signs that occur, and how it ends.
#![tactic(auto)]

mod encoding;
mod ended;
mod laws;
mod listing;
mod posing;
mod searching;

pub use encoding::{Encoded, encode};
pub use ended::Ended;
pub use formula_clauses::{ClauseFault, Clauses};
pub use laws::search_ends_once;
pub use listing::{Listing, followed_by};
pub use posing::inputs;
pub use searching::search;
