//! Names, types and terms of a theory file: from syntax trees to typed terms, or the first fault with its place.
#![tactic(auto)]

mod decl;
mod decls;
mod fault;
mod keys;
mod known;
mod laws;
mod leaves;
mod making;
mod names;
mod numbered;
mod part;
mod scope;
mod term_reader;
mod type_reader;
mod type_table;
mod word;

pub use decl::Decl;
pub use fault::{TheoryFault, TheoryKind};
pub use known::Known;
pub use laws::{sentences_are_sentences, types_fit};
pub use names::Names;
pub use term_reader::read_sentence;
pub use type_reader::read_type;
pub use word::word_at;
