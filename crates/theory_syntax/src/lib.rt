//! Reads the tokens of a theory file as declarations, exact about the first place where no theory goes on.
#![tactic(auto)]

mod front;
mod term_reader;
mod text_reader;
mod tokens;
mod tree;
mod type_reader;

pub use first_fault::Fault;
pub use text_reader::{one_answer, read};
pub use tokens::{Quant, Tok, Word};
pub use tree::{Hyp, Item, Op, Tree, TyTree};
