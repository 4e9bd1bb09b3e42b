ghost use Rattle.std.specs.Prelude.{◌≡◌, ◌<◌, length, IfOk};
ghost use Rattle.lambda_lift.specs.Wholes.{all_of as all_given, with_equations as with_equations_given};

use crate::lifting::Lifted;
use crate::walk::with_two;
use hol_terms::{Konst, Term, copy};
use std::alloc::Global;
use text_kit::NoMemory;

/// The conjunction of one or more terms.
fn all_of(alloc: Global, terms: &[Term]) -> Result<Term, NoMemory>
    requires { 0 < length terms.now }
    ensures { IfOk result (λ r. r ≡ all_given terms.now) }
{
    let mut at = terms.len() - 1;
    let mut out = copy(&terms[at])?;
    while at > 0 {
        at -= 1;
        out = with_two(alloc, &Konst::And, copy(&terms[at])?, out)?;
    }
    Ok(out)
}

/// A lifted formula and its equations as one formula: a fact is the formula and the equations, a goal the formula where
/// the equations hold.
pub fn whole(alloc: Global, lifted: &Lifted, goal: bool) -> Result<Term, NoMemory>
    ensures { IfOk result (λ r. r ≡ with_equations_given goal lifted.now.body lifted.now.equations) }
{
    let equations = lifted.equations.as_slice();
    if equations.is_empty() {
        return copy(&lifted.body);
    }
    let premises = all_of(alloc, equations)?;
    if goal {
        with_two(alloc, &Konst::Imp, premises, copy(&lifted.body)?)
    } else {
        with_two(alloc, &Konst::And, copy(&lifted.body)?, premises)
    }
}
