use hol_terms::{Term, Ty};
use text_kit::Shared;

/// A connective of two formulas.
#[derive(Clone, Copy, Debug, Drop, PartialEq, Eq)]
pub enum Junction {
    And,
    Or,
    Imp,
    /// `=` at bool
    Iff,
}

/// A quantifier.
#[derive(Clone, Copy, Debug, Drop, PartialEq, Eq)]
pub enum Quantifier {
    All,
    Ex,
}

/// A term by its connectives and quantifiers, down to its atoms.
#[derive(Debug, Drop)]
pub enum Formula {
    True,
    False,
    /// a term that none of the others is
    Atom(Term),
    Not(Shared<Formula>),
    Two(Junction, Shared<Formula>, Shared<Formula>),
    /// a quantifier on a lambda: the type of its variable, and its body, as a term and as a formula
    Quantified(Quantifier, Ty, Shared<Term>, Shared<Formula>),
}
