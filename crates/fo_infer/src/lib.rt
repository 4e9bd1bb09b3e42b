//! The inferences of the calculus over clauses, and subsumption.
#![tactic(auto)]

mod adding;
mod components;
mod concluding;
mod counting;
mod covering;
mod finding;
mod laws;
mod made;
mod meeting;
mod orienting;
mod pairs;
mod paramodulating;
mod paths;
mod ranking;
mod reading;
mod refutation;
mod renaming;
mod resolving;
mod seeking;
mod single;
mod source;
mod subsuming;
mod weighing;
mod writing;

pub use concluding::push_rest;
pub use finding::Finding;
pub use laws::{alone_is_one_list, between_is_one_list};
pub use made::{Made, Rule};
pub use meeting::may_infer;
pub use pairs::{between, between_plain, find_between};
pub use paramodulating::push_changed;
pub use paths::replace_in_atom;
pub use reading::sides;
pub use refutation::{Line, Origin, Refutation};
pub use renaming::{above_literals, raised, renamed};
pub use single::{alone, find_alone};
pub use subsuming::subsumes;
pub use writing::put_side;
