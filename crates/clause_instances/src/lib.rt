//! Theorems of instances of clauses: what an inference puts for a clause's variables, put into the clause's theorem at once.
#![tactic(auto)]

mod above;
mod at_once;
mod gathering;
mod image;
mod instancing;
mod naming;

pub use at_once::instantiate_at_once;
pub use image::{Image, literals_image};
pub use instancing::instance;
pub use naming::{paramodulant_names, resolvent_names, rest_names};
