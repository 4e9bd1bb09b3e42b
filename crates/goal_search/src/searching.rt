ghost use Rattle.std.specs.Prelude.{◌≡◌, ◌≤◌, IfOk};
ghost use Rattle.goal_search.specs.Fitting.{CanSearch, MadeIf};
ghost use Rattle.goal_search.specs.Encoded.{inputs as inputs_of};
ghost use Rattle.goal_search.specs.Found.{Ends};

use crate::ended::Ended;
use crate::posing::inputs;
use fo_terms::Clause;
use formula_clauses::ClauseFault;
use hol_terms::Env;
use metis_core::{Search, Turn};
use std::alloc::Global;
use text_kit::{NoMemory, Rows};

/// The budget, and one where there is none: a turn makes at least one pick if it can.
fn picks(budget: u32) -> u32
    ensures some { 1 ≤ result }
    ensures all { budget ≤ result }
{
    if budget == 0 { 1 } else { budget }
}

/// The search of these clauses, to its end.
fn search_clauses(alloc: Global, clauses: Rows<Clause>, budget: u32) -> Result<Ended, NoMemory>
    ensures { IfOk result (Ends clauses budget) }
{
    let mut search = Search::begin(alloc, clauses, budget)?;
    match search.turn(picks(budget)) {
        Turn::Found => Ok(Ended::Found(search.into_refutation())),
        Turn::Saturated => Ok(Ended::Saturated),
        Turn::Spent => Ok(Ended::Spent),
        Turn::NoMemory => Err(NoMemory),
        Turn::More => unreachable!(),
    }
}

/// The search for the goal with these facts, to its end, which comes after at most so many picks.
///
/// `TooLarge` comes exactly where one of the facts isn't there or doesn't fit, or the goal doesn't.
pub fn search(alloc: Global, env: &Env, facts: &[u32], budget: u32) -> Result<Ended, ClauseFault>
    ensures { MadeIf (CanSearch env.now facts.now) (Ends (inputs_of env.now facts.now) budget) result }
{
    match inputs(alloc, env, facts) {
        Ok(clauses) => match search_clauses(alloc, clauses, budget) {
            Ok(ended) => Ok(ended),
            Err(NoMemory) => Err(ClauseFault::NoMemory),
        },
        Err(fault) => Err(fault),
    }
}
