use text_kit::{Bytes, Rows};

/// A child in memory: what it prints, and the numbers of the reads of its pipe that fail.
#[derive(Debug, Drop)]
pub struct Child {
    pub bytes: Bytes,
    pub fails: Rows<u64>,
}
