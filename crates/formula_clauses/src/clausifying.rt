ghost use Rattle.std.specs.Prelude.{◌≡◌, IsTrue, IfOk};
ghost use Rattle.hol_terms.specs.Formulas.{is_sentence};
ghost use Rattle.formula_clauses.specs.Fits.{clausified};
ghost use Rattle.formula_clauses.specs.inner.Measures.{outcome, progress};
ghost use Rattle.formula_clauses.specs.Clausified.{Clausifies, IsLiftedClauses, ClausifiesLifted};
ghost use Rattle.formula_clauses.specs.inner.Lists.{Lists};

use crate::fault::ClauseFault;
use crate::fitting::fits;
use crate::listing::{Listed, list};
use crate::lists::Clauses;
use crate::scope::Scope;
use hol_formulas::read;
use hol_terms::{Sig, Term};
use lambda_lift::{Lifted, Table, lift, whole};
use std::alloc::Global;
use text_kit::NoMemory;

/// The clauses of what lifting has given.
fn list_lifted(
    alloc: Global,
    table: &mut Table,
    lifted: &Lifted,
    goal: bool,
) -> Result<Listed, NoMemory>
    ensures { IfOk result (λ r. Lists (clausified goal (outcome lifted.now table.old)) r table.new) }
{
    let formula = read(alloc, &whole(alloc, lifted, goal)?)?;
    list(alloc, formula.get(), !goal, &Scope::Outside, 0, table)
}

/// A formula without its lambdas and its equations, and the clauses of both.
#[derive(Drop)]
pub struct LiftedClauses {
    pub lifted: Lifted,
    pub clauses: Clauses,
}

fn clauses_of(
    alloc: Global,
    sig: &Sig,
    table: &mut Table,
    formula: &Term,
    goal: bool,
) -> Result<LiftedClauses, NoMemory>
    requires { IsTrue (is_sentence sig.now formula.now) }
    ensures { IfOk result (λ r. IsLiftedClauses sig.now table.old formula.now goal r table.new) }
{
    let lifted = lift(alloc, sig, table, formula)?;
    let listed = list_lifted(alloc, table, &lifted, goal)?;
    Ok(LiftedClauses {
        lifted,
        clauses: listed.clauses,
    })
}

/// The lifted form of a formula that fits, as a fact or as a goal, with its equations, and its clauses: those of the lifted form
/// with the equations of the auxiliary constants, in order, over a table that the whole search has.
///
/// `TooLarge` comes exactly where the formula doesn't fit, and then the table is as it was. Where memory is wanting the table
/// may have grown by entries of this formula.
pub fn clausify_lifted(
    alloc: Global,
    sig: &Sig,
    table: &mut Table,
    formula: &Term,
    goal: bool,
) -> Result<LiftedClauses, ClauseFault>
    requires { IsTrue (is_sentence sig.now formula.now) }
    ensures { ClausifiesLifted sig.now table.old formula.now goal result table.new }
{
    if !fits(alloc, sig, formula, goal)? {
        return Err(ClauseFault::TooLarge);
    }
    Ok(clauses_of(alloc, sig, table, formula, goal)?)
}

/// The clauses of a formula that fits, as `clausify_lifted` gives them.
pub fn clausify(
    alloc: Global,
    sig: &Sig,
    table: &mut Table,
    formula: &Term,
    goal: bool,
) -> Result<Clauses, ClauseFault>
    requires { IsTrue (is_sentence sig.now formula.now) }
    ensures { Clausifies sig.now table.old formula.now goal result table.new }
{
    Ok(clausify_lifted(alloc, sig, table, formula, goal)?.clauses)
}
