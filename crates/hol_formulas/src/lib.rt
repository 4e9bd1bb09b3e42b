//! Terms read as formulas: by their connectives and quantifiers, down to their atoms.
#![tactic(auto)]

mod atom;
mod formula;
mod reading;

pub use atom::{Sides, sides_of};
pub use formula::{Formula, Junction, Quantifier};
pub use reading::read;

#[cfg(test)]
mod tests;
