ghost use Rattle.std.specs.Prelude.{◌≡◌, ◌<◌, ◌≤◌, ◌^◌, true, length, IfOk};
ghost use Rattle.fol_cnf.specs.Clausified.{all_fit, clauses_of};
ghost use Rattle.fol_prover.specs.Proving.{given_of, inputs_of, sources_of, IsAnswer, Proves};
ghost use Rattle.fol_prover.specs.Texts.{gave_up_text};

use crate::child_end::{ChildEnd, end_with};
use crate::splitting::{Split, split_clauses};
use fol_cnf::{CnfFault, NamedClause, cnf};
use metis_core::{Search, Turn};
use std::alloc::Global;
use text_kit::{NoMemory, Rows};
use tptp_syntax::{Problem, TptpFault, read_problem};
use tstp_print::print_proof;

/// The answer where no proof was found.
fn gave_up(alloc: Global) -> Result<ChildEnd, NoMemory>
    ensures { IfOk result (λ e. (e.status ≡ 1) × (e.text ≡ gave_up_text)) }
{
    end_with(alloc, 1, b"% SZS status GaveUp\n")
}

/// The answer where the search found the empty clause.
fn print_found(
    alloc: Global,
    problem: &Problem,
    sources: &[u32],
    search: Search,
) -> Result<ChildEnd, NoMemory>
    requires fits { all_fit problem.now ≡ true }
    requires sources { sources.now ≡ sources_of (clauses_of problem.now) }
    requires found { search.reached ≡ Turn.Found }
    requires given { search.given ≡ given_of problem.now search.given.budget search.given.age }
    ensures { IfOk result (λ e. IsAnswer problem.now search.given.budget search.given.age e.status e.text) }
{
    let refutation = search.into_refutation();
    let text = print_proof(alloc, problem, sources, refutation.lines.as_slice())?;
    Ok(ChildEnd { status: 0, text })
}

/// Searches, and answers what the search came to. One turn makes all picks.
fn search_for(
    alloc: Global,
    problem: &Problem,
    split: Split,
    budget: u32,
    age: u32,
) -> Result<ChildEnd, NoMemory>
    requires age { 1 ≤ age }
    requires fits { all_fit problem.now ≡ true }
    requires inputs { split.inputs ≡ inputs_of (clauses_of problem.now) }
    requires sources { split.sources ≡ sources_of (clauses_of problem.now) }
    ensures { IfOk result (λ e. IsAnswer problem.now budget age e.status e.text) }
{
    let Split { inputs, sources } = split;
    let mut search = Search::begin_child(alloc, inputs, budget, age)?;
    match search.turn(u32::MAX) {
        Turn::More => unreachable!(),
        Turn::Found => print_found(alloc, problem, sources.as_slice(), search),
        Turn::Saturated => gave_up(alloc),
        Turn::Spent => gave_up(alloc),
        Turn::NoMemory => Err(NoMemory),
    }
}

/// Answers a problem whose clauses are made.
fn prove_clauses(
    alloc: Global,
    problem: &Problem,
    clauses: Rows<NamedClause>,
    budget: u32,
    age: u32,
) -> Result<ChildEnd, NoMemory>
    requires age { 1 ≤ age }
    requires fits { all_fit problem.now ≡ true }
    requires clauses { clauses ≡ clauses_of problem.now }
    ensures { IfOk result (λ e. IsAnswer problem.now budget age e.status e.text) }
{
    let split = split_clauses(alloc, clauses)?;
    search_for(alloc, problem, split, budget, age)
}

/// Answers a problem.
fn prove_problem(
    alloc: Global,
    problem: &Problem,
    budget: u32,
    age: u32,
) -> Result<ChildEnd, NoMemory>
    requires { 1 ≤ age }
    ensures { IfOk result (λ e. IsAnswer problem.now budget age e.status e.text) }
{
    match cnf(alloc, problem) {
        Ok(clauses) => prove_clauses(alloc, problem, clauses, budget, age),
        Err(CnfFault::TooLarge) => gave_up(alloc),
        Err(CnfFault::NoMemory) => Err(NoMemory),
    }
}

/// Answers the text of a problem: the proof with status 0, that no proof was found with 1, that it is no problem with 4.
///
/// The budget is the most picks that the search makes; each pick whose number the age divides takes the oldest clause. The proof is a
/// derivation: each `fof` line is a statement of the problem, each `cnf` line is a clause of its statement or follows by its word's rule
/// from clauses on earlier lines, and the last is `$false`. Its lines are exactly those that the last one needs.
pub fn prove_bytes(alloc: Global, text: &[u8], budget: u32, age: u32) -> Result<ChildEnd, NoMemory>
    requires small { length text.now < 2 ^ 32 }
    requires age { 1 ≤ age }
    ensures { IfOk result (λ e. Proves text.now budget age e.status e.text) }
{
    match read_problem(alloc, text) {
        Ok(problem) => prove_problem(alloc, &problem, budget, age),
        Err(TptpFault::BadText { at: _ }) => end_with(alloc, 4, b"% SZS status Error\n"),
        Err(TptpFault::NoMemory) => Err(NoMemory),
    }
}
