/// A chosen fact.
#[derive(Clone, Copy, Debug, Drop, PartialEq, Eq)]
pub struct Chosen {
    /// The fact's number among those that the goal is proved from.
    pub fact: u32,
    /// The round that took it, from 1.
    pub round: u32,
    /// The weight of its relevant constants: `top / bottom` is its score in that round.
    pub top: u64,
    /// The weight of all its constants.
    pub bottom: u64,
}
