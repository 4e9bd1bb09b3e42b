use crate::Ty;
use text_kit::Rows;

/// A signature: the number of base types with bool, the types of the named constants, and the types of the
/// auxiliary constants.
#[derive(Debug, Drop)]
pub struct Sig {
    pub types: u32,
    pub consts: Rows<Ty>,
    pub aux: Rows<Ty>,
}
