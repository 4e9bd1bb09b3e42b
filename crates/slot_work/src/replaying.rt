ghost use Rattle.std.specs.Prelude.{◌≡◌, IfOk};
ghost use Rattle.fact_minimise.specs.Sublists.{IsSublist};
ghost use Rattle.goal_search.specs.Encoded.{inputs};
ghost use Rattle.goal_search.specs.Fitting.{CanSearch};
ghost use Rattle.goal_search.specs.Found.{Ends};
ghost use Rattle.slot_work.specs.Replays.{From, outcome_of};

use crate::job::Job;
use crate::proving::minimal_proof;
use crate::replayed::Replayed;
use goal_search::{ClauseFault, Ended, search};
use hol_terms::Env;
use std::alloc::Global;
use text_kit::{NoMemory, Rows};

/// What comes of a search with these facts that ended so.
fn replayed(
    alloc: Global,
    env: &Env,
    facts: &Rows<u32>,
    budget: u32,
    ended: Ended,
) -> Result<Replayed, NoMemory>
    requires can { CanSearch env.now facts.now }
    requires ended { Ends (inputs env.now facts.now) budget ended }
    ensures { IfOk result (λ r. From env.now facts.now budget (outcome_of r)) }
{
    match ended {
        Ended::Found(_) => {
            let proof = minimal_proof(alloc, env, facts, budget)?;
            Ok(Replayed::Proved(proof))
        }
        Ended::Saturated => Ok(Replayed::Saturated),
        Ended::Spent => Ok(Replayed::Spent),
    }
}

/// The search for the goal of an environment with these facts, where they and the goal fit; and where it finds a refutation, the minimal ones of
/// them and the steps of a proof from these.
///
/// It makes one search for the facts, one for each turn of the minimiser, and one for the proof. Which minimal facts are given, where there
/// are several such lists, isn't said.
pub fn replay_facts(
    alloc: Global,
    env: &Env,
    facts: &Rows<u32>,
    budget: u32,
) -> Result<Replayed, NoMemory>
    requires { CanSearch env.now facts.now }
    ensures { IfOk result (λ r. From env.now facts.now budget (outcome_of r)) }
{
    match search(alloc, env, facts.as_slice(), budget) {
        Ok(ended) => replayed(alloc, env, facts, budget, ended),
        Err(fault) => match fault {
            ClauseFault::TooLarge => unreachable!(),
            ClauseFault::NoMemory => Err(NoMemory),
        },
    }
}

/// The replay of these facts for the job's goal, with its budget. The facts are visible and ascend.
pub fn replay(alloc: Global, job: &Job, facts: &Rows<u32>) -> Result<Replayed, NoMemory>
    requires { IsSublist facts.now job.now.visible }
    ensures { IfOk result (λ r. From job.now.env facts.now job.now.budget (outcome_of r)) }
{
    replay_facts(alloc, &job.env, facts, job.budget)
}
