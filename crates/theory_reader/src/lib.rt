//! Reads theory files, exact about the first fault, and finds in a theory what a name stands for.
#![tactic(auto)]

mod assume;
mod declare;
mod env;
mod items;
mod lookup;
mod parts;
mod piece;
mod reader;
mod seen;
mod statement;
mod theory;
mod toks;

pub use reader::{one_answer, read};
pub use statement::{Fact, Goal};
pub use theory::Theory;
pub use theory_terms::{Decl, TheoryFault, TheoryKind};
