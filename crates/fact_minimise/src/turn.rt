/// What came of a turn.
#[derive(Clone, Copy, Debug, PartialEq, Eq)]
pub enum MinTurn {
    /// One replay was made, and there are turns left.
    More,
    /// None of the kept facts can be spared.
    Done,
    /// There was no memory for the turn. Nothing has changed.
    NoMemory,
}
