use text_kit::Rows;

/// A finite model: the size of each base type, and the value of each constant.
#[derive(Debug, Drop)]
pub struct Model {
    pub sizes: Rows<u32>,
    pub consts: Rows<u64>,
}
