//! Marks of a clause's literals that tell where it can't subsume another.
#![tactic(auto)]

mod cover;
mod marks;

pub use cover::{ClauseMarks, marks_of, marks_of_flat, may_subsume};
