ghost use Rattle.std.specs.Prelude.{◌≡◌, List, [], IsTrue, IfOk};
ghost use Rattle.std.specs.List.{list_all};
ghost use Rattle.hol_terms.specs.Formulas.{is_sentence};
ghost use Rattle.lambda_lift.specs.Tables.{closed_terms};
ghost use Rattle.formula_clauses.specs.Sizes.{is_small as small};
ghost use Rattle.hol_terms.specs.declared.term.Term.{Term as TermOf};
ghost use Rattle.formula_clauses.specs.Walks.{Progress, walked};
ghost use Rattle.formula_clauses.specs.Fits.{fits as fits_as, walk_fits};
ghost use Rattle.formula_clauses.specs.inner.Measures.{outcome, progress};

use crate::counting::count;
use crate::fault::ClauseFault;
use crate::measuring::measure;
use crate::scope::Scope;
use crate::sizes::{has_at_most, is_met_at_most};
use hol_formulas::{Formula, read};
use hol_terms::{Sig, Term};
use lambda_lift::{Aux, Lifted, Table, lift, whole};
use std::alloc::Global;
use text_kit::NoMemory;

/// The most nodes of a formula that is made clauses.
const MOST_NODES: u64 = 1_024;
/// The most nodes of a closed term.
const MOST_CLOSED: u64 = 2_048;
/// The most times that a place of a formula is met.
const MOST_MEETINGS: u64 = 64;

fn are_small(entries: &[Aux]) -> bool
    ensures { result ≡ list_all small (closed_terms entries.now) }
{
    match entries {
        [] => true,
        [e, rest @ ..] => has_at_most(&e.closed, MOST_CLOSED) && are_small(rest),
    }
}

/// Whether no list of clauses is too long.
fn has_few_clauses(f: &Formula, positive: bool) -> bool
    ensures { (e : List TermOf) (p : Progress) → (walked f.now positive e p).few ≡ result }
{
    let counts = count(f);
    if positive {
        counts.positive.is_some()
    } else {
        counts.negative.is_some()
    }
}

/// Whether no closed term on the way is too large.
fn has_small_choices(
    alloc: Global,
    f: &Formula,
    positive: bool,
    table: &mut Table,
) -> Result<bool, NoMemory>
    ensures { IfOk result (λ b. b ≡ (walked f.now positive [] (progress 0 table.old)).small) }
{
    match measure(alloc, f, positive, &Scope::Outside, 0, table) {
        Ok(_) => Ok(true),
        Err(ClauseFault::TooLarge) => Ok(false),
        Err(ClauseFault::NoMemory) => Err(NoMemory),
    }
}

/// Whether what was made of a formula fits. Each number is looked at before what it counts is made.
fn fits_lifted(
    alloc: Global,
    table: &mut Table,
    lifted: &Lifted,
    goal: bool,
) -> Result<bool, NoMemory>
    ensures { IfOk result (λ b. b ≡ walk_fits goal (outcome lifted.now table.old)) }
{
    if !are_small(table.entries().as_slice()) {
        return Ok(false);
    }
    let formula = read(alloc, &whole(alloc, lifted, goal)?)?;
    if !is_met_at_most(formula.get(), MOST_MEETINGS) || !has_few_clauses(formula.get(), !goal) {
        return Ok(false);
    }
    has_small_choices(alloc, formula.get(), !goal, table)
}

/// Whether the formula fits as a fact, or as a goal.
///
/// It fits where it has at most 1,024 nodes; each list of clauses on the way at most 64 of them, counted with none dropped; no place is
/// met more than 64 times; and each closed term on the way, expanded, at most 2,048 nodes. All of it is counted over a table of its own,
/// and before it is made, so a formula that doesn't fit costs no more than one that does. Only want of memory is refused.
pub fn fits(alloc: Global, sig: &Sig, formula: &Term, goal: bool) -> Result<bool, NoMemory>
    requires { IsTrue (is_sentence sig.now formula.now) }
    ensures { IfOk result (λ b. b ≡ fits_as sig.now formula.now goal) }
{
    if !has_at_most(formula, MOST_NODES) {
        return Ok(false);
    }
    let mut table = Table::begin(alloc);
    let lifted = lift(alloc, sig, &mut table, formula)?;
    fits_lifted(alloc, &mut table, &lifted, goal)
}
