//! A law alone: a problem's text is read as the problem that was written.
#![tactic(auto)]

mod laws;

pub use laws::problem_is_read;
