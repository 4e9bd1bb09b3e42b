use hol_terms::Term;
use text_kit::{Bytes, Rows};

/// A fact, or an assumption of a goal.
#[derive(Debug, Drop)]
pub struct Fact {
    pub name: Bytes,
    pub formula: Term,
}

/// A goal.
#[derive(Debug, Drop)]
pub struct Goal {
    pub name: Bytes,
    pub formula: Term,
    /// The number of facts that stand before it.
    pub before: u32,
    /// Its assumptions, in the order of the file.
    pub assumes: Rows<Fact>,
}
