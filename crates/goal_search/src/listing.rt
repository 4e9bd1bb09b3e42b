ghost use Rattle.std.specs.Prelude.{◌≡◌, ◌++◌, IsTrue, IfOk};
ghost use Rattle.std.specs.List.{fold};
ghost use Rattle.hol_terms.specs.Formulas.{is_sentence};
ghost use Rattle.formula_clauses.specs.Fits.{fits};
ghost use Rattle.goal_search.specs.Inputs.{with_formula as formula_in, with_fact as fact_in, nothing, listed};
ghost use Rattle.goal_search.specs.Fitting.{fits_at, AllFit, CanSearch, MadeIf};

use formula_clauses::{ClauseFault, Clauses, clausify};
use hol_terms::{Env, Sig, Term};
use lambda_lift::Table;
use std::alloc::Global;
use text_kit::{NoMemory, Rows};

/// Clauses, and the table of the closed terms that their auxiliary constants stand for.
#[derive(Drop)]
pub struct Listing {
    pub clauses: Clauses,
    pub table: Table,
}

/// These clauses, moved, and then those.
pub fn followed_by(clauses: Clauses, more: Clauses) -> Result<Clauses, NoMemory>
    ensures { IfOk result (λ cs. cs ≡ clauses ++ more) }
{
    let mut all = clauses.into_vec();
    let mut rest = more.into_vec();
    match all.append(&mut rest) {
        Ok(()) => Ok(Rows::from_vec(all)),
        Err(_) => Err(NoMemory),
    }
}

/// The clauses of a formula that fits behind those that are there.
fn with_formula(
    alloc: Global,
    sig: &Sig,
    listing: Listing,
    t: &Term,
    goal: bool,
) -> Result<Listing, ClauseFault>
    requires { IsTrue (is_sentence sig.now t.now) }
    ensures { MadeIf (IsTrue (fits sig.now t.now goal)) (λ l. l ≡ formula_in sig.now goal listing t.now) result }
{
    let Listing { clauses, mut table } = listing;
    match clausify(alloc, sig, &mut table, t, goal) {
        Ok(more) => match followed_by(clauses, more) {
            Ok(clauses) => Ok(Listing { clauses, table }),
            Err(NoMemory) => Err(ClauseFault::NoMemory),
        },
        Err(fault) => Err(fault),
    }
}

/// The clauses of a fact that is there and fits behind those that are there.
fn with_fact(alloc: Global, env: &Env, listing: Listing, fact: u32) -> Result<Listing, ClauseFault>
    ensures { MadeIf (IsTrue (fits_at env.now fact)) (λ l. l ≡ fact_in env.now listing fact) result }
{
    match env.facts.get(fact as usize) {
        Some(t) => with_formula(alloc, &env.sig, listing, t, false),
        None => Err(ClauseFault::TooLarge),
    }
}

/// The clauses of facts in their order.
fn list_facts(alloc: Global, env: &Env, facts: &[u32]) -> Result<Listing, ClauseFault>
    ensures { MadeIf (AllFit env.now facts.now) (λ l. l ≡ fold (fact_in env.now) nothing facts.now) result }
{
    let mut listing = Listing {
        clauses: Rows::begin(alloc),
        table: Table::begin(alloc),
    };
    for fact in facts {
        match with_fact(alloc, env, listing, *fact) {
            Ok(next) => listing = next,
            Err(fault) => return Err(fault),
        }
    }
    Ok(listing)
}

/// The clauses of facts in their order, and then of the goal.
pub fn list(alloc: Global, env: &Env, facts: &[u32]) -> Result<Listing, ClauseFault>
    ensures { MadeIf (CanSearch env.now facts.now) (λ l. l ≡ listed env.now facts.now) result }
{
    match list_facts(alloc, env, facts) {
        Ok(listing) => with_formula(alloc, &env.sig, listing, &env.goal, true),
        Err(fault) => Err(fault),
    }
}
