//! The words of a command line as the one line that they are.
#![tactic(auto)]

mod command;
mod fault;
mod line;
mod numbers;
mod option;
mod pieces;
mod reader;
mod settings;
#[cfg(test)]
mod tests;

pub use command::Command;
pub use fault::WordsFault;
pub use line::Line;
pub use numbers::number_within;
pub use option::Flag;
pub use reader::read_words;
