//! Reads the statements of a TPTP problem in first-order form, exact about the first place where no problem goes on.
#![tactic(auto)]

mod claim;
mod formula_steps;
mod frames;
mod front;
mod grown;
mod lexer;
mod names;
mod problem;
mod read;
mod reader;
mod settling;
mod skip_steps;
mod sorts;
mod statement_steps;
mod term_steps;
mod tokens;
mod walk;
mod words;

pub use claim::Claimed;
pub use front::Front;
pub use problem::{Problem, Statement, TptpFault};
pub use read::{one_answer, read_problem};
pub use sorts::{Kind, Mode, Skip};
pub use tokens::{Chain, Pair, Quant, Tok};
