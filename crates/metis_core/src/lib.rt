//! The search for a refutation with a given clause.
#![tactic(auto)]

mod given;
mod inferring;
mod known;
mod laws;
mod premises;
mod raised;
mod search;
mod stock;
mod stop;
mod turn;
mod units;
mod waiting;

pub use given::{Given, Positions};
pub use laws::search_is_definite;
pub use search::Search;
pub use turn::Turn;
