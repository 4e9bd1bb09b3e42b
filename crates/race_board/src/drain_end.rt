/// Why the reading of a pipe ended.
#[derive(Clone, Copy, Debug, PartialEq, Eq)]
pub enum DrainEnd {
    /// The pipe had no more bytes.
    Ended,
    /// The pipe failed.
    Failed,
    /// So many bytes were read as are read at most: 4 MiB and one.
    Long,
    /// There was no memory for more.
    NoMemory,
}
