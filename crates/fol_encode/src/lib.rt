//! Typed terms and formulas as first-order ones: the signs and their numbers, tags, encoding and decoding.
#![tactic(auto)]

mod atom;
mod formula;
mod gathered;
mod laws;
mod occurring;
mod sign;
mod signs;
mod term;

pub use atom::encode_atom;
pub use formula::encode_formula;
pub use laws::{encoded_is_read, signs_cover};
pub use sign::Sign;
pub use signs::{Signs, decode_term, signs_of};
