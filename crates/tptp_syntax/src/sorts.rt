use crate::Chain;

/// The parts of a formula that begin with a token of their own.
#[derive(Clone, Copy, Debug, Drop, PartialEq, Eq)]
pub enum Kind {
    /// what a quantifier or `~` takes
    Unit,
    /// a literal of a `cnf` statement
    Literal,
    /// what `~` takes there
    Positive,
}

/// How a formula may go on behind a part of it.
#[derive(Clone, Copy, Debug, Drop, PartialEq, Eq)]
pub enum Mode {
    /// with any sign
    Fresh,
    /// with the same sign
    Chained(Chain),
    /// not at all
    Ended,
}

/// The places in the further parts of a statement.
#[derive(Clone, Copy, Debug, Drop, PartialEq, Eq)]
pub enum Skip {
    /// behind the formula: a comma or nothing
    Behind,
    /// where a part begins
    Begun,
    /// within a part
    Within,
    /// in brackets there
    Group,
}
