ghost use Rattle.std.specs.Prelude.{◌≡◌, ◌↔◌, IsTrue, IfOk};
ghost use Rattle.fo_terms.specs.Weight.{atom_size, capped};

use crate::FoTerm;
use std::alloc::{AllocError, Global};
use text_kit::NoMemory;

/// An atom: a term that is said to hold, or an equation.
#[derive(Debug, Drop)]
pub enum Atom {
    /// a term that holds
    Holds(FoTerm),
    /// the left and the right side of an equation, which aren't exchanged
    Eq(FoTerm, FoTerm),
}

impl Atom {
    /// The weights of its terms together, or `u64::MAX` where they are above that. It takes no memory.
    pub fn weight(&self) -> u64
        ensures { result ≡ capped (atom_size self.now) }
    {
        match self {
            Atom::Holds(t) => t.weight(),
            Atom::Eq(s, t) => s.weight().saturating_add(t.weight()),
        }
    }

    /// Whether two atoms are the same. It takes no memory.
    pub fn same(&self, other: &Atom) -> bool
        ensures { IsTrue result ↔ (self.now ≡ other.now) }
    {
        match (self, other) {
            (Atom::Holds(s), Atom::Holds(t)) => s.same(t),
            (Atom::Eq(a, b), Atom::Eq(c, d)) => a.same(c) && b.same(d),
            _ => false,
        }
    }

    /// A second atom of the same terms.
    pub fn copy(&self, alloc: Global) -> Result<Atom, NoMemory>
        ensures { IfOk result (λ a. a ≡ self.now) }
    {
        match self {
            Atom::Holds(t) => Ok(Atom::Holds(t.copy(alloc)?)),
            Atom::Eq(s, t) => Ok(Atom::Eq(s.copy(alloc)?, t.copy(alloc)?)),
        }
    }
}

impl Clone for Atom {
    ghost is_clone = { λ x y. y ≡ x };

    fn clone(&self) -> Result<Atom, AllocError> {
        match self {
            Atom::Holds(t) => Ok(Atom::Holds(t.clone()?)),
            Atom::Eq(s, t) => Ok(Atom::Eq(s.clone()?, t.clone()?)),
        }
    }
}
