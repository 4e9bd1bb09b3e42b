//! Clauses of a log's facts and goal, each with its theorem.
#![tactic(auto)]

mod each;
mod entries;
mod equations;
mod identity;
mod laws;
mod lifting;
mod naming;
mod pair;
mod part;
mod refuting;
mod source;
mod sources;
mod typing;
mod values;

pub use formula_clauses::{ClauseFault, TypedLiteral, fits};
pub use laws::{
    choice_stands, chosen_expands, chosen_is_shown, closed_over_typed, expanded_stands,
    expands_under, known_stays, opens_again, put_under, reads_back, refuted_is_walked, reopens,
};
pub use source::Source;
pub use sources::{fact_clauses, goal_clauses};
pub use typing::clauses_are_typed;
