//! Prints a theory, so that what was read from some text is read again from the printed one.
#![tactic(auto)]

mod printer;
mod statements;

pub use printer::print;
