ghost use Rattle.std.specs.Prelude.{◌≡◌, ◌++◌, [], ◌∷◌, map, true, IsTrue, IfOk};
ghost use Rattle.std.specs.List.{fold};
ghost use Rattle.kernel_rules.specs.Derivations.{leaves};
ghost use Rattle.hol_kernel.specs.Growth.{Extends, SameFacts};
ghost use Rattle.hol_clausify.specs.Sources.{literals_of};
ghost use Rattle.goal_search.specs.Fitting.{fits_at, AllFit, goal_fits};
ghost use Rattle.goal_search.specs.Inputs.{with_formula, with_fact, nothing, listed};
ghost use Rattle.goal_proofs.specs.inner.Sourced.{AreSourced, more_sourced};

use goal_search::{Clauses, Listing, followed_by};
use hol_clausify::{ClauseFault, Source, fact_clauses, goal_clauses};
use hol_kernel::{Log, ThmId};
use lambda_lift::Table;
use std::alloc::Global;
use text_kit::{NoMemory, Rows};

/// Clauses over a table, and for each its theorem.
#[derive(Drop)]
pub struct Sourced {
    pub listing: Listing,
    pub thms: Rows<ThmId>,
}

/// The clauses of sources, and their theorems behind those that are there.
fn part(alloc: Global, sources: Rows<Source>, thms: &mut Rows<ThmId>) -> Result<Clauses, NoMemory>
    ensures clauses { IfOk result (λ cs. cs ≡ literals_of sources) }
    ensures thms { IfOk result (λ _. thms.new ≡ thms.old ++ map (λ s. s.thm) sources) }
{
    let mut clauses = Rows::begin(alloc);
    for source in sources.into_vec() {
        let Source { literals, thm } = source;
        clauses.push(literals)?;
        thms.push(thm)?;
    }
    Ok(clauses)
}

/// Sources behind those that are there, over the table behind them.
fn followed(
    alloc: Global,
    clauses: Clauses,
    mut thms: Rows<ThmId>,
    table: Table,
    sources: Rows<Source>,
) -> Result<Sourced, NoMemory>
    ensures { IfOk result (λ s. s ≡ more_sourced clauses thms table sources) }
{
    let more = part(alloc, sources, &mut thms)?;
    let clauses = followed_by(clauses, more)?;
    Ok(Sourced {
        listing: Listing { clauses, table },
        thms,
    })
}

/// The sources of a fact that fits behind those that are there.
fn with_fact_sources(
    alloc: Global,
    log: &mut Log,
    sourced: Sourced,
    fact: u32,
) -> Result<Sourced, NoMemory>
    requires fits { IsTrue (fits_at log.old.env fact) }
    requires sourced { AreSourced log.old sourced }
    ensures kept { Extends log.old log.new }
    ensures facts { IfOk result (λ _. leaves log.new.steps ≡ leaves log.old.steps ++ fact ∷ []) }
    ensures sourced { IfOk result (λ s. AreSourced log.new s) }
    ensures listing { IfOk result (λ s. s.listing ≡ with_fact log.old.env sourced.listing fact) }
{
    let Sourced { listing, thms } = sourced;
    let Listing { clauses, mut table } = listing;
    match fact_clauses(alloc, log, &mut table, fact) {
        Ok(sources) => followed(alloc, clauses, thms, table, sources),
        Err(fault) => match fault {
            ClauseFault::NoMemory => Err(NoMemory),
            ClauseFault::TooLarge => unreachable!(),
        },
    }
}

/// The sources of the goal, which fits, behind those that are there.
fn with_goal_sources(alloc: Global, log: &mut Log, sourced: Sourced) -> Result<Sourced, NoMemory>
    requires fits { IsTrue (goal_fits log.old.env) }
    requires sourced { AreSourced log.old sourced }
    ensures kept { Extends log.old log.new }
    ensures facts { IfOk result (λ _. SameFacts log.old log.new) }
    ensures sourced { IfOk result (λ s. AreSourced log.new s) }
    ensures listing { IfOk result (λ s. s.listing ≡ with_formula log.old.env.sig true sourced.listing log.old.env.goal) }
{
    let Sourced { listing, thms } = sourced;
    let Listing { clauses, mut table } = listing;
    match goal_clauses(alloc, log, &mut table) {
        Ok(sources) => followed(alloc, clauses, thms, table, sources),
        Err(fault) => match fault {
            ClauseFault::NoMemory => Err(NoMemory),
            ClauseFault::TooLarge => unreachable!(),
        },
    }
}

/// The sources of facts in their order.
fn fact_sources(alloc: Global, log: &mut Log, facts: &[u32]) -> Result<Sourced, NoMemory>
    requires { AllFit log.old.env facts.now }
    ensures kept { Extends log.old log.new }
    ensures facts { IfOk result (λ _. leaves log.new.steps ≡ leaves log.old.steps ++ facts.now) }
    ensures sourced { IfOk result (λ s. AreSourced log.new s) }
    ensures listing { IfOk result (λ s. s.listing ≡ fold (with_fact log.old.env) nothing facts.now) }
{
    let mut sourced = Sourced {
        listing: Listing {
            clauses: Rows::begin(alloc),
            table: Table::begin(alloc),
        },
        thms: Rows::begin(alloc),
    };
    for fact in facts {
        sourced = with_fact_sources(alloc, log, sourced, *fact)?;
    }
    Ok(sourced)
}

/// The sources of facts in their order, and then of the goal: the clauses that a search is given, each with its theorem.
pub fn sources(alloc: Global, log: &mut Log, facts: &[u32]) -> Result<Sourced, NoMemory>
    requires facts { AllFit log.old.env facts.now }
    requires goal { IsTrue (goal_fits log.old.env) }
    ensures kept { Extends log.old log.new }
    ensures facts { IfOk result (λ _. leaves log.new.steps ≡ leaves log.old.steps ++ facts.now) }
    ensures sourced { IfOk result (λ s. AreSourced log.new s) }
    ensures listing { IfOk result (λ s. s.listing ≡ listed log.old.env facts.now) }
{
    let sourced = fact_sources(alloc, log, facts)?;
    with_goal_sources(alloc, log, sourced)
}
