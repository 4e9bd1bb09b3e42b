ghost use Rattle.fo_infer.specs.inner.Reading.{HeldAs, SidesAs};

use fo_terms::{Atom, FoTerm, Literal};

/// The term of a literal of this sign that is no equation.
pub fn held(l: &Literal, positive: bool) -> Option<&FoTerm>
    ensures { HeldAs l.now positive result }
{
    if l.positive != positive {
        return None;
    }
    match &l.atom {
        Atom::Holds(t) => Some(t),
        Atom::Eq(_, _) => None,
    }
}

/// The sides of an equation of this sign.
pub fn sides(l: &Literal, positive: bool) -> Option<(&FoTerm, &FoTerm)>
    ensures { SidesAs l.now positive result }
{
    if l.positive != positive {
        return None;
    }
    match &l.atom {
        Atom::Holds(_) => None,
        Atom::Eq(s, t) => Some((s, t)),
    }
}
