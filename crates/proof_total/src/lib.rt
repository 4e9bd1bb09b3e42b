//! Each text has an answer as a proof text.
#![tactic(auto)]

mod laws;

pub use laws::some_answer;
