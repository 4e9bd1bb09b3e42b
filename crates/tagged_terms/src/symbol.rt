use hol_terms::{Term, Ty};

/// What a symbol of first-order terms stands for.
#[derive(Debug, Drop)]
pub enum Symbol {
    /// the tag of a type: its one argument is a core of this type
    Tag(Ty),
    /// application: the first of its two arguments is a function that takes the second one
    Apply,
    /// a constant, which has no arguments: the closed term that it stands for, and the term's type
    Constant(Term, Ty),
}

/// A typed variable and the term that is put for it.
#[derive(Debug, Drop)]
pub struct Instance {
    /// the variable's number
    pub var: u64,
    /// the variable's type, which is the term's too
    pub ty: Ty,
    /// the term
    pub term: Term,
}
