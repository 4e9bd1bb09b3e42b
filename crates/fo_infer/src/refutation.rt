use crate::Rule;
use fo_terms::Clause;
use text_kit::Rows;

/// Where a line of a refutation comes from. Numbers of lines are places of earlier ones.
#[derive(Debug, Drop)]
pub enum Origin {
    /// the normal form of the input with this number
    Input { number: u64 },
    /// an inference of one line's clause
    Alone { of: u64, rule: Rule },
    /// an inference of two lines' clauses
    Pair { left: u64, right: u64, rule: Rule },
}

/// A clause and where it comes from.
#[derive(Debug, Drop)]
pub struct Line {
    /// the clause, in normal form
    pub clause: Clause,
    /// where it comes from
    pub origin: Origin,
}

/// A derivation of the empty clause, which its last line holds.
#[derive(Debug, Drop)]
pub struct Refutation {
    /// the lines, each after those that it comes from
    pub lines: Rows<Line>,
}
