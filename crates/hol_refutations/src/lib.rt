//! How a formula is refuted from refutations of its parts. Each place of a formula is refuted under the one hypothesis that
//! it holds, or that it fails; each call goes from the parts of one shape of formula to the whole.
//!
//! Each call appends steps to a log and none of them is a fact step. Where memory runs out, some of a call's steps may have
//! been appended.
#![tactic(auto)]

mod choices;
mod counterexamples;
mod denying;
mod equality;
mod laws;
mod propositional;
mod quantifiers;

pub use choices::{some_chosen, some_named};
pub use counterexamples::{not_all_chosen, not_all_named};
pub use equality::{equal_first, equal_second, not_equal};
pub use laws::{both_land, denial_lands, either_lands, part_lands, parts_land};
pub use propositional::{
    and_left, and_right, atom, falsity, implies, not_and, not_implies, not_not, not_or_left,
    not_or_right, not_true, or_both,
};
pub use quantifiers::{all_at, not_some_at};
