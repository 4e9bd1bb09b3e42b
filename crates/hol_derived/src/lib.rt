//! Rules that are derived from the kernel's: each call appends steps to a log.
//!
//! Where memory runs out, some of a call's steps may have been appended.
#![tactic(auto)]

mod contracting;
mod cutting;
mod replacing;
mod splitting;

pub use contracting::{beta_expand, contraction};
pub use cutting::cut;
pub use replacing::{replace_at, replaced};
pub use splitting::{cases, excluded_middle};
