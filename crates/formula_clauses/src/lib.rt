//! The clauses of a formula, and whether a formula is small enough to be made clauses.
#![tactic(auto)]

mod choosing;
mod clausifying;
mod closing;
mod counting;
mod fault;
mod fitting;
mod listing;
mod lists;
mod measuring;
mod scope;
mod sizes;
mod variables;

pub use clausifying::{LiftedClauses, clausify, clausify_lifted};
pub use closing::{apply_to, close};
pub use fault::ClauseFault;
pub use fitting::fits;
pub use hol_terms::TypedLiteral;
pub use lists::{Clause, Clauses};
pub use variables::{Variable, variables_in};
