use fo_terms::{Clause, FoTerm, Literal};
use text_kit::Rows;

/// An equation of the left clause in one direction, with both clauses.
#[derive(Clone, Copy, Drop)]
pub struct Source<'a> {
    /// whether any subterm that is no variable is a position
    pub plain: bool,
    /// the left clause
    pub p: &'a Clause,
    /// the right clause
    pub q: &'a Clause,
    /// the right clause's literals, with their variables renamed apart
    pub apart: &'a Rows<Literal>,
    /// the place of the equation
    pub i: usize,
    /// whether it is taken from right to left
    pub swapped: bool,
    /// the side that is sought
    pub sought: &'a FoTerm,
    /// the other side, which is put in its place
    pub put_in: &'a FoTerm,
    /// whether the side that is sought is known to stay less than the other one when it is made the same as a slight term
    pub stays_less: bool,
}
