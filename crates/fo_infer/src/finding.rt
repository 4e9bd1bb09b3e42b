use crate::Rule;
use fo_unify::Bindings;

/// An inference whose clause isn't written yet: how it is made, and the unifier that is to be put through what it leaves.
#[derive(Drop)]
pub struct Finding<'a> {
    /// how it is made
    pub rule: Rule,
    /// the unifier
    pub unifier: Bindings<'a>,
}
