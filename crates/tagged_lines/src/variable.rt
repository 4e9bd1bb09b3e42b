use hol_terms::Ty;

/// A variable, and the type of the tag right above it.
#[derive(Debug, Drop)]
pub struct TypedVariable {
    /// the variable's number
    pub var: u64,
    /// the type that the tag says
    pub ty: Ty,
}
