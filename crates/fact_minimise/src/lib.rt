//! Minimises a list of facts against a replay: what is kept is found, and no fact of it can be spared.
#![tactic(auto)]

mod minimise;
mod replay;
mod stage;
#[cfg(test)]
mod tests;
mod turn;

pub use minimise::Minimise;
pub use replay::Replay;
pub use turn::MinTurn;
