//! Lambda lifting: a formula without its lambdas, the table of the closed terms that its auxiliary constants stand for,
//! and their equations.
#![tactic(auto)]

mod closing;
mod equation;
mod expanding;
mod key_set;
mod keys;
mod laws;
mod lifting;
mod met;
mod paths;
mod scope;
mod table;
mod view;
mod walk;
mod wholes;

pub use equation::equation as raw_equation;
pub use expanding::expand;
pub use key_set::KeySet;
pub use keys::{key_of_ty, put_konst_key, put_ty_key};
pub use laws::{body_is_formula, equations_hold, keys_tell, lifted_stands};
pub use lifting::{Lifted, lift};
pub use paths::{put_side_redexes, redexes};
pub use scope::{Scope, nth};
pub use table::{Aux, Table};
pub use wholes::whole;
