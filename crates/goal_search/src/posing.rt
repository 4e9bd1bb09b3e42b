ghost use Rattle.std.specs.Prelude.{◌≡◌};
ghost use Rattle.goal_search.specs.Fitting.{CanSearch, MadeIf};
ghost use Rattle.goal_search.specs.Inputs.{listed};
ghost use Rattle.goal_search.specs.Encoded.{inputs as inputs_of, encoded, signs_in};

use crate::encoding::{Encoded, encode};
use crate::listing::{Listing, list};
use fo_terms::Clause;
use formula_clauses::ClauseFault;
use hol_terms::{Env, Sig};
use std::alloc::Global;
use text_kit::{NoMemory, Rows};

/// The clauses without their signs.
fn clauses_alone(encoded: Encoded) -> Rows<Clause>
    ensures { result ≡ encoded.clauses }
{
    let Encoded { signs, clauses } = encoded;
    drop(signs);
    clauses
}

/// Listed clauses, encoded.
fn encode_listing(alloc: Global, sig: &Sig, listing: &Listing) -> Result<Rows<Clause>, ClauseFault>
    ensures { MadeIf (Unit {0}) (λ cs. cs ≡ encoded (signs_in sig.now listing.now) listing.now.clauses) result }
{
    match encode(alloc, sig, &listing.table, &listing.clauses) {
        Ok(encoded) => Ok(clauses_alone(encoded)),
        Err(NoMemory) => Err(ClauseFault::NoMemory),
    }
}

/// What a search for the goal is given with these facts: their clauses in the given order, and then the goal's.
///
/// `TooLarge` comes exactly where one of the facts isn't there or doesn't fit, or the goal doesn't. Since each formula fits, it takes room
/// and time in proportion to the number of facts, times the logarithm of the number of different symbols.
pub fn inputs(alloc: Global, env: &Env, facts: &[u32]) -> Result<Rows<Clause>, ClauseFault>
    ensures { MadeIf (CanSearch env.now facts.now) (λ cs. cs ≡ inputs_of env.now facts.now) result }
{
    match list(alloc, env, facts) {
        Ok(listing) => encode_listing(alloc, &env.sig, &listing),
        Err(fault) => Err(fault),
    }
}
