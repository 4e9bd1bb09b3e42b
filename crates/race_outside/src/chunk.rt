/// What a read of a pipe gave.
#[derive(Clone, Copy, Debug, PartialEq, Eq)]
pub enum Chunk {
    /// So many of the next bytes stand at the front of the buffer, one at least.
    Got(usize),
    /// Nothing is left.
    End,
    /// The pipe failed.
    Failed,
}
