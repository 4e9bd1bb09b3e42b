//! The text of a refutation in the TSTP form: the statements and the clauses that its last line needs, each with its parents.
#![tactic(auto)]

mod clause;
mod formula;
mod lines;
mod marking;
mod names;
mod printer;
mod symbols;
mod term;
mod vocabulary;

pub use names::put_name;
pub use printer::print_proof;
