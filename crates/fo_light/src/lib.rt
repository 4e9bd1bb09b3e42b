//! The clauses of inferences as cells, written straight from the premises: what is heavier than a search keeps isn't written out.
#![tactic(auto)]

mod concluding;
mod instance;
mod lists;
mod literals;
mod made;
mod symbol;

pub use concluding::conclude_light;
pub use lists::{alone_light, between_light};
pub use made::FlatMade;
