//! The board of a race: its launcher, its history, and what each slot keeps of its child.
#![tactic(auto)]

mod board;
mod drain_end;
mod drained;
mod entered;
mod kills;
mod launched;
mod laws;
mod name;
mod opened;
mod slot_ends;
#[cfg(test)]
mod tests;

pub use board::Board;
pub use drain_end::DrainEnd;
pub use drained::Drained;
pub use launched::Launched;
pub use laws::{kept_bytes_are_the_first, one_slot_is_never_lost};
pub use name::Name;
