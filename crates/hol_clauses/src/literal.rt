ghost use Rattle.std.specs.Prelude.{◌≡◌, IfOk};
ghost use Rattle.hol_clauses.specs.Literals.{denied as denied_of};

use hol_terms::{Term, TypedLiteral, copy};
use kernel_rules::negation;
use std::alloc::Global;
use text_kit::NoMemory;

/// The negation of a literal, without a double one: what the theorem of its clause has as a hypothesis.
pub fn denied(alloc: Global, l: &TypedLiteral) -> Result<Term, NoMemory>
    ensures { IfOk result (λ t. t ≡ denied_of l.now) }
{
    if l.positive {
        negation(alloc, &l.atom)
    } else {
        copy(&l.atom)
    }
}
