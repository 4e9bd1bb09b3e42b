ghost use Rattle.std.specs.Prelude.{◌≡◌, ◌↔◌, IsTrue, IfOk};
ghost use Rattle.fo_terms.specs.Weight.{clause_size, capped};

use crate::Literal;
use std::alloc::{AllocError, Global};
use text_kit::{NoMemory, Rows};

/// A disjunction of literals, in order. Its variables stand for all values.
#[derive(Debug, Drop)]
pub struct Clause {
    /// its literals
    pub literals: Rows<Literal>,
}

impl Clause {
    /// The weights of all its literals together, or `u64::MAX` where they are above that. It takes no memory.
    pub fn weight(&self) -> u64
        ensures { result ≡ capped (clause_size self.now) }
    {
        let mut total = 0u64;
        for l in self.literals.as_slice() {
            total = total.saturating_add(l.weight());
        }
        total
    }

    /// Whether two clauses have the same literals in the same order. It takes no memory.
    pub fn same(&self, other: &Clause) -> bool
        ensures { IsTrue result ↔ (self.now ≡ other.now) }
    {
        same_literals(self.literals.as_slice(), other.literals.as_slice())
    }

    /// A second clause of the same literals.
    pub fn copy(&self, alloc: Global) -> Result<Clause, NoMemory>
        ensures { IfOk result (λ c. c ≡ self.now) }
    {
        Ok(Clause {
            literals: self.literals.copy(alloc)?,
        })
    }
}

fn same_literals(left: &[Literal], right: &[Literal]) -> bool
    ensures { IsTrue result ↔ (left.now ≡ right.now) }
{
    if left.len() != right.len() {
        return false;
    }
    for i in 0..left.len() {
        if !left[i].same(&right[i]) {
            return false;
        }
    }
    true
}

impl Clone for Clause {
    ghost is_clone = { λ x y. y ≡ x };

    fn clone(&self) -> Result<Clause, AllocError> {
        match self.copy(self.literals.allocator()) {
            Ok(clause) => Ok(clause),
            Err(NoMemory) => Err(AllocError),
        }
    }
}
