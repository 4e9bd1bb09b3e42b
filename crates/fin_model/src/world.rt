use crate::Valued;
use hol_terms::Sig;
use model_truth::Model;
use text_kit::Rows;

/// What terms are evaluated in: the signature, the model, and the values of free variables.
#[derive(Clone, Copy)]
pub(crate) struct World<'a> {
    pub sig: &'a Sig,
    pub model: &'a Model,
    pub free: &'a Rows<Valued>,
}
