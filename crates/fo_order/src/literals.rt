ghost use Rattle.std.specs.Prelude.{◌≡◌, ◌↔◌, ◌<◌, IsTrue, length};
ghost use Rattle.fo_order.specs.KnuthBendix.{Above};
ghost use Rattle.fo_order.specs.Eligible.{IsBelowSome, IsBelow, IsEligible};

use crate::comparing::is_less;
use fo_terms::{Atom, Clause, FoTerm};

fn is_below_some(s: &FoTerm, atom: &Atom) -> bool
    ensures { IsTrue result ↔ IsBelowSome s.now atom.now }
{
    match atom {
        Atom::Holds(t) => is_less(s, t),
        Atom::Eq(t, u) => is_less(s, t) || is_less(s, u),
    }
}

fn is_below(left: &Atom, right: &Atom) -> bool
    ensures { IsTrue result ↔ IsBelow left.now right.now }
{
    match left {
        Atom::Holds(s) => is_below_some(s, right),
        Atom::Eq(s, t) => is_below_some(s, right) && is_below_some(t, right),
    }
}

/// Whether the literal at a place is below no other of its clause. It takes no memory.
pub fn eligible(c: &Clause, i: usize) -> bool
    requires { i < length c.now.literals }
    ensures { IsTrue result ↔ IsEligible c.now i }
{
    let literals = c.literals.as_slice();
    let chosen = &literals[i].atom;
    for j in 0..literals.len() {
        if j != i && is_below(chosen, &literals[j].atom) {
            return false;
        }
    }
    true
}
