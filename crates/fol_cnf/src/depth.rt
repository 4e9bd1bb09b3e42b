use fo_terms::FoFormula;
use tptp_syntax::Statement;

/// The most levels of a formula whose clauses are made: with a stack of 8 MiB the walk held 4,800 in a test, and not 5,400.
const MOST: u32 = 4_400;

/// Whether a formula has so many levels at most, atoms not counted.
fn has_levels(f: &FoFormula, most: u32) -> bool {
    if most == 0 {
        return false;
    }
    match f {
        FoFormula::True => true,
        FoFormula::False => true,
        FoFormula::Atom(_) => true,
        FoFormula::Not(a) => has_levels(a.get(), most - 1),
        FoFormula::And(a, b) => has_levels(a.get(), most - 1) && has_levels(b.get(), most - 1),
        FoFormula::Or(a, b) => has_levels(a.get(), most - 1) && has_levels(b.get(), most - 1),
        FoFormula::Imp(a, b) => has_levels(a.get(), most - 1) && has_levels(b.get(), most - 1),
        FoFormula::Iff(a, b) => has_levels(a.get(), most - 1) && has_levels(b.get(), most - 1),
        FoFormula::Each(_, b) => has_levels(b.get(), most - 1),
        FoFormula::One(_, b) => has_levels(b.get(), most - 1),
    }
}

/// Whether the stack holds the walks over all statements. No clause rests on it: where it doesn't, the answer is want of memory.
pub fn are_shallow(statements: &[Statement]) -> bool {
    for s in statements {
        if !has_levels(&s.formula, MOST) {
            return false;
        }
    }
    true
}
