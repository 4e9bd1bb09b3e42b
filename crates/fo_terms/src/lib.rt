//! First-order terms, literals and clauses, and the normal form and the weight of a clause.
#![tactic(auto)]

mod atom;
mod clause;
mod formula;
mod laws;
mod literal;
mod normal;
mod term;

pub use atom::Atom;
pub use clause::Clause;
pub use formula::FoFormula;
pub use laws::{have_one_normal_form, normal_form_stays};
pub use literal::Literal;
pub use normal::lasting_variables;
pub use term::{FoTerm, copy_all, same_all, weight_all};

#[cfg(test)]
mod tests;
