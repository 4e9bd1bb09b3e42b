//! Types and terms of monomorphic higher-order logic: typing, substitution, and what a formula is.
#![tactic(auto)]

mod env;
mod fault;
mod formula;
mod konst;
mod laws;
mod literal;
mod order;
mod sig;
mod subst;
mod term;
mod together;
mod ty;
mod typing;
mod weight;

pub use env::Env;
pub use fault::TypeFault;
pub use formula::{has_no_aux, has_no_free, has_type, is_formula, is_sentence};
pub use konst::{Konst, copy_konst, same_konst};
pub use laws::{
    abstraction_keeps_types, closed_has_one_type, replacement_keeps_types,
    substitution_keeps_types, typed_is_closed,
};
pub use literal::TypedLiteral;
pub use order::compare;
pub use sig::Sig;
pub use subst::{abstract_over, free_in, instantiate, put_free};
pub use term::{Term, copy, same};
pub use together::{are_sentences, put_together};
pub use ty::{Ty, arrow, copy_ty, same_ty};
pub use typing::{fits, type_of};
pub use weight::{DEEPEST, nodes, type_nodes};

#[cfg(test)]
mod tests;
