//! First-order terms and clauses as cells in reading order, which are compared, weighed and kept with hardly any allocation.
#![tactic(auto)]

mod binds;
mod cell;
mod cells;
mod flat;
mod place;
mod print;
mod renumbering;
mod trees;
mod writing;

pub use binds::{Binds, bound};
pub use cell::{Cell, after_symbol, first_cell, same_cells, split_term, term_len};
pub use cells::Cells;
pub use flat::FlatClause;
pub use print::print_of;
pub use writing::put_term;

#[cfg(test)]
mod tests;
