//! Reads the types and the terms of a proof text, over the bytes that are left.
#![tactic(auto)]

mod atom_reader;
mod cursor;
mod lookup;
mod name_reader;
mod number_reader;
mod sides;
mod term_front;
mod term_reader;
mod term_word;
mod type_reader;

pub use cursor::{sign, word};
pub use lookup::Lookup;
pub use name_reader::read_name;
pub use number_reader::read_number;
pub use term_reader::read_term;
pub use type_reader::read_type;
