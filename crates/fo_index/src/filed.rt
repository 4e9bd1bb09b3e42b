use text_kit::Rows;

/// An id, and the front of the key that it was filed under.
#[derive(Debug, Drop)]
pub struct Filed {
    /// The symbols of the key before its first variable, in preorder, as many as count.
    pub front: Rows<u64>,
    pub id: u32,
}
