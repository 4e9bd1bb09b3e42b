use text_kit::Bytes;

/// What a race for a goal is run with.
#[derive(Debug, Drop)]
pub struct Contest {
    /// How many slots it has: slot k's child reads the problem of slice k.
    pub slices: u32,
    pub workers: u32,
    /// Picks of the search in each replay.
    pub budget: u32,
    /// The limit of time, in milliseconds, where there is one.
    pub limit: Option<u64>,
    /// The program that is started for each slot.
    pub prover: Bytes,
}
