//! First-order terms that stand for typed terms: what they are read as, and the laws of these readings.
#![tactic(auto)]

mod decoding;
mod laws;
mod symbol;

pub use decoding::{decode, type_of_tag};
pub use laws::{
    in_turn_is_at_once, readings_are_terms, readings_have_types, replacements_join,
    substitution_keeps_readings, unifiers_fit,
};
pub use symbol::{Instance, Symbol};
