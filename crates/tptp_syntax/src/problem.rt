use fo_terms::FoFormula;
use text_kit::{Bytes, Rows};

/// A named formula of a problem.
#[derive(Debug, Drop)]
pub struct Statement {
    /// its name, without quotes
    pub name: Bytes,
    /// whether it is the conjecture
    pub conjecture: bool,
    /// its formula, which is closed
    pub formula: FoFormula,
}

/// A first-order problem.
#[derive(Debug, Drop)]
pub struct Problem {
    /// the text of each symbol by its number, in the order of first occurrence
    pub names: Rows<Bytes>,
    /// the statements in the order of the text
    pub statements: Rows<Statement>,
}

/// Why a text is no problem.
#[derive(Clone, Copy, Debug, Drop, PartialEq, Eq)]
pub enum TptpFault {
    /// No problem goes on with the token, or with the byte that begins none, at this place; or none ends at the end.
    BadText { at: u64 },
    /// Memory ran out.
    NoMemory,
}
