use text_kit::Bytes;
use theory_terms::Decl;

/// The names that are printed: those of the types and of the constants, each by its place, and the number that stands
/// in the names of bound variables.
#[derive(Clone, Copy)]
pub struct Vocabulary<'a> {
    pub types: &'a [Bytes],
    pub consts: &'a [Decl],
    pub number: u32,
}
