//! Lists, bytes, shared values, tokens and digits, which contracts see as what they hold.
#![tactic(auto)]

mod bytes;
mod cut;
mod decimal;
mod rows;
mod shared;
#[cfg(test)]
mod tests;

pub use bytes::Bytes;
pub use cut::{Kind, Token, TokenFault, one_cut, tokens};
pub use decimal::put_decimal;
pub use rows::Rows;
pub use shared::Shared;

/// Want of memory: the one answer that no contract ties to a cause.
#[derive(Clone, Copy, Debug, Drop, PartialEq, Eq)]
pub struct NoMemory;
