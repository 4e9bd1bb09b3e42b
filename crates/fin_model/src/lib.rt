//! Terms evaluated in finite models, and models that refute goals.
#![tactic(auto)]

mod around;
mod calls;
mod constants;
mod digits;
mod evaluating;
mod fault;
mod fitting;
mod head;
mod sizes;
mod valued;
mod world;

pub use calls::{eval, leaves_true, refutes};
pub use fault::EvalFault;
pub use fitting::fits_model;
pub use model_truth::Model;
pub use sizes::size;
pub use valued::Valued;
