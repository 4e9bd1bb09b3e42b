/// A device failed. Each answer of it comes with a rise of the count of the object that failed.
#[derive(Clone, Copy, Debug, Drop, PartialEq, Eq)]
pub struct Failed;

/// Why a fetch was refused.
#[derive(Clone, Copy, Debug, Drop, PartialEq, Eq)]
pub enum FetchFault {
    /// The shelf failed, or holds nothing under the name.
    Failed,
    /// Want of memory for the bytes.
    NoMemory,
}

/// Why a start was refused.
#[derive(Clone, Copy, Debug, Drop, PartialEq, Eq)]
pub enum StartFault {
    /// The launcher failed.
    Failed,
    /// Want of memory.
    NoMemory,
}
