//! The clauses of first-order statements: a conjunction of disjunctions by cases, with new symbols for chosen values.
#![tactic(auto)]

mod counting;
mod depth;
mod fault;
mod fitting;
mod lists;
mod making;
mod named_clause;
mod progress;
mod scope;
mod variables;
mod walking;

pub use fault::CnfFault;
pub use making::cnf;
pub use named_clause::NamedClause;
