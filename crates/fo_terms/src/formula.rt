use crate::Atom;
use text_kit::Shared;

/// A first-order formula. Its variables are numbers; a quantifier binds one, and the innermost counts.
#[derive(Debug, Drop)]
pub enum FoFormula {
    /// true
    True,
    /// false
    False,
    /// an atom
    Atom(Atom),
    /// a negation
    Not(Shared<FoFormula>),
    /// a conjunction
    And(Shared<FoFormula>, Shared<FoFormula>),
    /// a disjunction
    Or(Shared<FoFormula>, Shared<FoFormula>),
    /// an implication
    Imp(Shared<FoFormula>, Shared<FoFormula>),
    /// an equivalence
    Iff(Shared<FoFormula>, Shared<FoFormula>),
    /// for each value of the variable
    Each(u64, Shared<FoFormula>),
    /// for at least one value of the variable
    One(u64, Shared<FoFormula>),
}
