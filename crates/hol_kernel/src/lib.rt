//! A log of kernel steps, each of which follows by its rule from earlier ones.
#![tactic(auto)]

mod append;
mod derivation;
mod equality;
mod fault;
mod log;
mod propositional;
mod proven;
mod quantifiers;
mod work;

pub use derivation::checked;
pub use fault::StepFault;
pub use kernel_rules::{Sequent, Step, ThmId};
pub use log::Log;
pub use proven::Proven;
