ghost use Rattle.std.specs.Prelude.{◌≡◌, IfOk};
ghost use Rattle.std.specs.List.{list_all};
ghost use Rattle.hol_terms.specs.Formulas.{is_sentence as sentence_test};
ghost use Rattle.hol_terms.specs.Envs.{PutTogether};

use crate::formula::is_sentence;
use crate::weight::nodes;
use crate::{Env, Sig, Term, TypeFault};
use std::alloc::Global;
use text_kit::{NoMemory, Rows};

/// The nodes that terms which are looked at together may have in all, their types and those of their constants counted.
const MOST_IN_ALL: u64 = 1 << 30;

/// Whether each term is a sentence over the signature.
///
/// Want of memory is the answer besides where the terms, written out as trees with their types and those of their
/// constants, have more than 2^30 nodes in all, since types are looked at wherever they stand.
pub fn are_sentences(alloc: Global, sig: &Sig, terms: &[Term]) -> Result<bool, NoMemory>
    ensures { IfOk result (λ b. b ≡ list_all (sentence_test sig.now) terms.now) }
{
    let mut left = MOST_IN_ALL;
    for t in terms {
        left = left.saturating_sub(nodes(sig.consts.as_slice(), t, left)?);
        if !is_sentence(alloc, sig, t)? {
            return Ok(false);
        }
    }
    Ok(true)
}

/// Puts signature, facts and goal together, where the signature has bool and each fact and the goal is a sentence.
pub fn put_together(
    alloc: Global,
    sig: Sig,
    facts: Rows<Term>,
    goal: Term,
) -> Result<Env, TypeFault>
    ensures { PutTogether sig facts goal result }
{
    let fits = sig.types > 0
        && are_sentences(alloc, &sig, facts.as_slice())?
        && is_sentence(alloc, &sig, &goal)?;
    if fits {
        Ok(Env { sig, facts, goal })
    } else {
        Err(TypeFault::IllTyped)
    }
}
