use formula_clauses::TypedLiteral;
use hol_kernel::ThmId;
use text_kit::Rows;

/// A clause with its theorem.
///
/// The theorem concludes `false`, and its hypotheses are among the negations of the literals, expanded over the table that
/// the clause was made with or a later one, and for a clause of the goal also the negated goal.
#[derive(Debug, Drop)]
pub struct Source {
    pub literals: Rows<TypedLiteral>,
    pub thm: ThmId,
}
