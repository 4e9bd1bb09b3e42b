use fo_cells::FlatClause;
use fo_infer::Rule;

/// An inference: the literals of the clause that it gives, in normal form and as cells, and how it was made.
#[derive(Drop)]
pub struct FlatMade {
    /// the literals of the clause
    pub clause: FlatClause,
    /// how it was made
    pub rule: Rule,
}
