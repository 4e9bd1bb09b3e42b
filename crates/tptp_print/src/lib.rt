//! Problem texts: a goal and facts as first-order formulas in the TPTP language, with tagged terms.
#![tactic(auto)]

mod formula;
mod konst;
mod page;
mod problem;
mod term;
mod types;

pub use problem::problem_text;
