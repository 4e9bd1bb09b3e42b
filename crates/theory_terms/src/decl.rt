use hol_terms::Ty;
use text_kit::Bytes;

/// A constant of a theory, by its name and its type.
#[derive(Debug, Drop)]
pub struct Decl {
    pub name: Bytes,
    pub ty: Ty,
}
