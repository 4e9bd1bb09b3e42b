//! Theorems of clauses: each concludes `false` under hypotheses that deny the clause's literals.
#![tactic(auto)]

mod binding;
mod equating;
mod instantiating;
mod laws;
mod literal;
mod resolving;

pub use binding::Binding;
pub use equating::{paramodulate, rewrite, turned_round};
pub use hol_terms::TypedLiteral;
pub use instantiating::instantiate;
pub use laws::{
    in_turn_is_at_once, instance_lands, literals_may_come_again, paramodulant_lands,
    reflexivity_lands, resolvent_lands,
};
pub use literal::denied;
pub use resolving::{reflexivity, resolve};
