use fo_terms::Clause;

/// A clause of a statement.
#[derive(Debug, Drop)]
pub struct NamedClause {
    /// the clause
    pub clause: Clause,
    /// the number of its statement, from 0
    pub statement: u32,
}
