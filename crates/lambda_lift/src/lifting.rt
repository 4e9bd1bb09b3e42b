ghost use Rattle.std.specs.Prelude.{◌≡◌, IsTrue, IfOk, [], ◌++◌, ◌^◌, ◌-◌, length};
ghost use Rattle.hol_terms.specs.Formulas.{is_sentence};
ghost use Rattle.lambda_lift.specs.Equations.{equation as equation_of};
ghost use Rattle.lambda_lift.specs.Lifting.{lifted, lifted_equation, entry_at, equated};
ghost use Rattle.lambda_lift.specs.Views.{stage, ends};

use crate::equation::equation;
use crate::met::Met;
use crate::scope::Scope;
use crate::table::{Aux, Table};
use crate::walk::lift_formula;
use hol_terms::{Konst, Sig, Term, Ty};
use std::alloc::Global;
use text_kit::{NoMemory, Rows};

/// A formula without its lambdas but those of its quantifiers, and the equations of the auxiliary constants that stand for
/// them, in the order in which they are met.
#[derive(Debug, Drop)]
pub struct Lifted {
    pub body: Term,
    pub equations: Rows<Term>,
}

/// The equation of a number.
fn equation_at(alloc: Global, table: &Table, k: u64) -> Result<Term, NoMemory>
    ensures { IfOk result (λ r. r ≡ equation_of k (entry_at table.now k)) }
{
    match table.entries().get(k as usize) {
        Some(entry) => equation(alloc, k, entry),
        None => equation(
            alloc,
            k,
            &Aux {
                ty: Ty::Base(0),
                closed: Term::Con(Konst::True),
            },
        ),
    }
}

/// The equation of a number, lifted.
fn lift_equation(
    alloc: Global,
    sig: &Sig,
    table: &mut Table,
    met: &mut Met,
    k: u64,
) -> Result<Term, NoMemory>
    ensures { IfOk result (λ r. lifted_equation sig.now k (stage table.old met.old) ≡ ends r table.new met.new) }
{
    let raw = equation_at(alloc, &*table, k)?;
    lift_formula(alloc, sig, table, met, &Scope::Outside, &raw)
}

/// The equations of the numbers met, those met in equations too.
fn equations(
    alloc: Global,
    sig: &Sig,
    table: &mut Table,
    met: &mut Met,
) -> Result<Rows<Term>, NoMemory>
    ensures { IfOk result (λ es. equated sig.now (2 ^ 64 - 1) 0 (stage table.old met.old) ≡ record { equations = es; table = table.new }) }
{
    let mut out = Rows::begin(alloc);
    for at in 0..u64::MAX {
        match met.at(at) {
            Some(k) => out.push(lift_equation(alloc, sig, table, met, k)?)?,
            None => return Ok(out),
        }
    }
    Ok(out)
}

/// The formula without its lambdas, and the equations of the auxiliary constants that stand for them.
///
/// Where it is refused, the table may have grown by entries of this formula.
pub fn lift(alloc: Global, sig: &Sig, table: &mut Table, formula: &Term) -> Result<Lifted, NoMemory>
    requires { IsTrue (is_sentence sig.now formula.now) }
    ensures { IfOk result (λ r. lifted sig.now table.old formula.now ≡ record { body = r.body; equations = r.equations; table = table.new }) }
{
    let mut met = Met::begin(alloc);
    let body = lift_formula(alloc, sig, table, &mut met, &Scope::Outside, formula)?;
    let equations = equations(alloc, sig, table, &mut met)?;
    Ok(Lifted { body, equations })
}
