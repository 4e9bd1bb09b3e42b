//! The sequents that the kernel's rules give: each rule as a function of the sequents that it is put to.
#![tactic(auto)]

mod concluding;
mod connectives;
mod equality;
mod given;
mod made;
mod propositional;
mod quantifiers;
mod sequent;
mod shapes;
mod step;

pub use connectives::{
    apply, conjunction, disjunction, equation, existential, implication, lambda, lambda_over,
    negation, universal,
};
pub use made::sequent_of;
pub use sequent::Sequent;
pub use shapes::{
    body, function, head_ty, is_conjunction, is_disjunction, is_equation, is_existential,
    is_falsum, is_implication, is_lambda, is_negation, is_redex, is_universal, left, right,
};
pub use step::{Step, ThmId};
