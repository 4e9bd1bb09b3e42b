use crate::score::Score;

/// A fact that may be chosen: its number, and where its constants stand in the list of those of all facts.
#[derive(Clone, Copy, Debug, Drop)]
pub(crate) struct Place {
    pub fact: u32,
    pub start: u32,
    pub end: u32,
}

/// A fact with its score in a round.
#[derive(Clone, Copy, Debug, Drop)]
pub(crate) struct Scored {
    pub place: Place,
    pub score: Score,
}
