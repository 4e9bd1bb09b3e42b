//! Marks of clauses that tell, at a look, that two clauses have no inferences.
#![tactic(auto)]

mod gathering;
mod listing;
mod marks;
mod pairs;
mod tops;
mod words;

pub use pairs::{PairMarks, marks_of, may_infer};
