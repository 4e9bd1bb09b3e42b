ghost use Rattle.std.specs.Prelude.{◌≡◌};
ghost use Rattle.formula_clauses.specs.Walks.{walked};
ghost use Rattle.formula_clauses.specs.inner.Scopes.{scope_terms};
ghost use Rattle.formula_clauses.specs.inner.Measures.{progress, Measured, is_iff as iff_test, first_sign as first_sign_of};

use crate::choosing::open_small;
use crate::fault::ClauseFault;
use crate::scope::Scope;
use hol_formulas::{Formula, Junction};
use lambda_lift::Table;
use std::alloc::Global;

/// The sign with which the left side is met first.
pub fn first_sign(junction: Junction, positive: bool) -> bool
    ensures { result ≡ first_sign_of junction positive }
{
    match junction {
        Junction::And => positive,
        Junction::Or => positive,
        Junction::Imp => !positive,
        Junction::Iff => !positive,
    }
}

pub fn is_iff(junction: Junction) -> bool
    ensures { result ≡ iff_test junction }
{
    matches!(junction, Junction::Iff)
}

/// Walks the formula as the walk that makes its clauses does, but makes only the closed terms, each of which is counted first.
/// Gives the number of the next variable.
pub fn measure(
    alloc: Global,
    f: &Formula,
    positive: bool,
    scope: &Scope,
    next: u64,
    table: &mut Table,
) -> Result<u64, ClauseFault>
    ensures { Measured (walked f.now positive (scope_terms scope.now) (progress next table.old)) result table.new }
{
    match f {
        Formula::True => Ok(next),
        Formula::False => Ok(next),
        Formula::Atom(_) => Ok(next),
        Formula::Not(a) => measure(alloc, a.get(), !positive, &*scope, next, table),
        Formula::Two(junction, a, b) => {
            let first = first_sign(*junction, positive);
            let second = measure(alloc, a.get(), first, &*scope, next, table)?;
            if !is_iff(*junction) {
                return measure(alloc, b.get(), positive, &*scope, second, table);
            }
            let third = measure(alloc, b.get(), true, &*scope, second, table)?;
            let fourth = measure(alloc, a.get(), positive, &*scope, third, table)?;
            measure(alloc, b.get(), false, &*scope, fourth, table)
        }
        Formula::Quantified(q, ty, body, inner) => {
            let opened = open_small(alloc, *q, ty, body.get(), positive, &*scope, next, table)?;
            let under = Scope::Under(opened.value.get(), &*scope);
            measure(alloc, inner.get(), positive, &under, opened.next, table)
        }
    }
}
