//! Lines of refutations over tagged terms: how what a line stands for follows from what its parents stand for.
#![tactic(auto)]

mod laws;
mod variable;

pub use laws::{
    clauses_are_formulas, factoring_lifts, inputs_lift, instances_agree, own_types_serve,
    own_variables_are_tagged, paramodulation_lifts, reflexivity_lifts, resolution_lifts,
};
pub use variable::TypedVariable;
