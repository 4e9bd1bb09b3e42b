use crate::{Term, copy};
use std::alloc::AllocError;
use text_kit::NoMemory;

/// A literal over typed terms: an atom or its negation.
#[derive(Debug, Drop)]
pub struct TypedLiteral {
    pub positive: bool,
    pub atom: Term,
}

impl Clone for TypedLiteral {
    ghost use Rattle.std.specs.Prelude.{◌≡◌};

    ghost is_clone = { λ x y. y ≡ x };

    fn clone(&self) -> Result<TypedLiteral, AllocError> {
        match copy(&self.atom) {
            Ok(atom) => Ok(TypedLiteral {
                positive: self.positive,
                atom,
            }),
            Err(NoMemory) => Err(AllocError),
        }
    }
}
