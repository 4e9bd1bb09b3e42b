//! Prints the types and the terms of a theory with the fewest brackets, so that they are read again as themselves.
#![tactic(auto)]

mod fresh;
mod laws;
mod lexeme;
mod sort;
mod term_printer;
mod text;
mod type_printer;
mod view;
mod vocabulary;

pub use fresh::fresh_number;
pub use laws::read_again;
pub use sort::Sort;
pub use term_printer::put_sentence;
pub use text::has_text;
pub use type_printer::put_type;
pub use vocabulary::Vocabulary;
