ghost use Rattle.std.specs.Prelude.{◌↔◌, [], ◌∷◌, IsTrue, IfOk};
ghost use Rattle.fo_infer.specs.Subsumption.{Subsumes};
ghost use Rattle.fo_infer.specs.inner.Components.{Sendable};

use crate::components::covers_components;
use crate::covering::covers;
use crate::seeking::{Sought, fewest_first, seek};
use fo_terms::{Clause, Literal};
use std::alloc::Global;
use text_kit::{NoMemory, Rows};

/// Whether the literal can be sent to one of `d`. Where no symbol is met, it takes no memory.
fn sends_one(alloc: Global, l: &Literal, d: &[Literal]) -> Result<bool, NoMemory>
    ensures { IfOk result (λ b. IsTrue b ↔ Sendable d.now (l.now ∷ [])) }
{
    let one = [Sought {
        literal: l,
        partners: 1,
    }];
    let mut binds = Rows::begin(alloc);
    let made = covers(&one, 0, d, &mut binds)?;
    Ok(made)
}

/// Whether the one clause subsumes the other: it has no more literals, and one substitution sends each of its literals
/// to a literal of the other. Two may go to the same one.
///
/// First each literal has to have some partner: a literal of the other clause that it can be sent to alone. Then literals
/// that share no variables are looked at apart, those with the fewest partners first. Within literals that hang together by
/// their variables the search is exponential in their number at worst, as the question is NP-complete.
pub fn subsumes(alloc: Global, c: &Clause, d: &Clause) -> Result<bool, NoMemory>
    ensures { IfOk result (λ b. IsTrue b ↔ Subsumes c.now d.now) }
{
    if c.literals.len() > d.literals.len() {
        return Ok(false);
    }
    if c.literals.len() == 1 {
        let made = sends_one(alloc, c.literals.at(0), d.literals.as_slice())?;
        return Ok(made);
    }
    match seek(alloc, c.literals.as_slice(), d.literals.as_slice())? {
        None => Ok(false),
        Some(found) => {
            let ordered = fewest_first(found)?;
            let made = covers_components(alloc, ordered.as_slice(), d.literals.as_slice())?;
            Ok(made)
        }
    }
}
