use hol_terms::{Term, Ty};

/// A variable, by its number and its type, and the term that is put for it.
#[derive(Debug, Drop)]
pub struct Binding {
    pub number: u64,
    pub ty: Ty,
    pub term: Term,
}
