/// Why a text is no proof text.
#[derive(Clone, Copy, Debug, Drop, PartialEq, Eq)]
pub enum ProofFault {
    /// The byte where the first fault stands.
    At { at: u64 },
    /// Memory ran out.
    NoMemory,
}

/// Why a part of a proof text isn't read, with the bytes of the text that are left from the fault's place on.
#[derive(Clone, Copy, Debug, Drop, PartialEq, Eq)]
pub enum PartFault {
    /// No text goes on with the byte.
    Stops(usize),
    /// A name that isn't declared begins here, or a term that is nested too deep.
    GoesBeyond(usize),
    /// Memory ran out.
    NoMemory,
}
