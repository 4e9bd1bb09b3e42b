//! Most general unifiers.
#![tactic(auto)]

mod bound;
mod matching;
mod solving;
mod subst;
mod triangle;

pub use bound::Bindings;
pub use matching::{match_all, match_into, matches};
pub use solving::{meet, meet_both, unify, unify_both};
pub use subst::{Bind, Subst, apply, apply_all, find, occurs, occurs_any};
pub use triangle::Held;
