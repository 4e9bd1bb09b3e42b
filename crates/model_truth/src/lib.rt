//! Truth in finite models, and that the kernel's rules keep it.
#![tactic(auto)]

mod laws;
mod model;

pub use laws::{
    abstraction_updates, countermodels_refute, derivations_keep_truth, functions_are_their_values,
    replacement_updates, rules_keep_truth, substitution_updates, value_is_of_its_type,
    value_is_of_its_variables,
};
pub use model::Model;
