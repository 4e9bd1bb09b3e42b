//! The order of Knuth and Bendix on terms, and the literals of a clause that it leaves to inferences.
#![tactic(auto)]

mod comparing;
mod counting;
mod laws;
mod literals;

pub use comparing::{Order, is_at_most, is_less, kbo};
pub use laws::order_is_strict;
pub use literals::eligible;

#[cfg(test)]
mod tests;
