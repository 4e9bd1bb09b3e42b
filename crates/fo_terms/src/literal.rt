ghost use Rattle.std.specs.Prelude.{◌≡◌, ◌↔◌, IsTrue, IfOk};
ghost use Rattle.fo_terms.specs.Weight.{literal_size, capped};

use crate::Atom;
use std::alloc::{AllocError, Global};
use text_kit::NoMemory;

/// An atom or its negation.
#[derive(Debug, Drop)]
pub struct Literal {
    /// whether it is the atom itself
    pub positive: bool,
    /// the atom
    pub atom: Atom,
}

impl Literal {
    /// The weight of its atom. It takes no memory.
    pub fn weight(&self) -> u64
        ensures { result ≡ capped (literal_size self.now) }
    {
        self.atom.weight()
    }

    /// Whether two literals have the same sign and the same atom. It takes no memory.
    pub fn same(&self, other: &Literal) -> bool
        ensures { IsTrue result ↔ (self.now ≡ other.now) }
    {
        self.positive == other.positive && self.atom.same(&other.atom)
    }

    /// A second literal of the same sign and atom.
    pub fn copy(&self, alloc: Global) -> Result<Literal, NoMemory>
        ensures { IfOk result (λ l. l ≡ self.now) }
    {
        Ok(Literal {
            positive: self.positive,
            atom: self.atom.copy(alloc)?,
        })
    }
}

impl Clone for Literal {
    ghost is_clone = { λ x y. y ≡ x };

    fn clone(&self) -> Result<Literal, AllocError> {
        Ok(Literal {
            positive: self.positive,
            atom: self.atom.clone()?,
        })
    }
}
