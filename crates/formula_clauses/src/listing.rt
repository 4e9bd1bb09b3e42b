ghost use Rattle.std.specs.Prelude.{◌≡◌, IfOk, if◌then◌else◌};
ghost use Rattle.formula_clauses.specs.Walks.{truth as truth_of, literal, joined, appended, walked};
ghost use Rattle.formula_clauses.specs.Choices.{put_in};
ghost use Rattle.formula_clauses.specs.inner.Scopes.{scope_terms};
ghost use Rattle.formula_clauses.specs.inner.Measures.{progress, is_product as product_test};
ghost use Rattle.formula_clauses.specs.inner.Lists.{Lists};

use crate::choosing::open;
use crate::lists::{Clauses, put_together, truth, unit};
use crate::measuring::{first_sign, is_iff};
use crate::scope::Scope;
use hol_formulas::{Formula, Junction};
use hol_terms::Term;
use lambda_lift::Table;
use std::alloc::Global;
use text_kit::NoMemory;

/// Clauses, and the number of the next variable.
#[derive(Drop)]
pub struct Listed {
    pub clauses: Clauses,
    pub next: u64,
}

/// Whether each clause of the left side is joined with each of the right one.
fn is_product(junction: Junction, positive: bool) -> bool
    ensures { result ≡ product_test junction positive }
{
    match junction {
        Junction::And => !positive,
        Junction::Or => positive,
        Junction::Imp => positive,
        Junction::Iff => positive,
    }
}

fn truth_listed(alloc: Global, holds: bool, next: u64) -> Result<Listed, NoMemory>
    ensures { IfOk result (λ r. (r.clauses ≡ truth_of holds) × (r.next ≡ next)) }
{
    Ok(Listed {
        clauses: truth(alloc, holds)?,
        next,
    })
}

fn unit_listed(
    alloc: Global,
    positive: bool,
    t: &Term,
    scope: &Scope,
    next: u64,
) -> Result<Listed, NoMemory>
    ensures { IfOk result (λ r. (r.clauses ≡ literal positive (put_in (scope_terms scope.now) t.now 0)) × (r.next ≡ next)) }
{
    Ok(Listed {
        clauses: unit(alloc, positive, t, &*scope)?,
        next,
    })
}

fn both(alloc: Global, product: bool, left: Listed, right: Listed) -> Result<Listed, NoMemory>
    ensures { IfOk result (λ r. (r.clauses ≡ (if product then joined else appended) left.clauses right.clauses) × (r.next ≡ right.next)) }
{
    let next = right.next;
    let clauses = put_together(alloc, product, left.clauses, right.clauses)?;
    Ok(Listed { clauses, next })
}

/// The clauses of the formula with this sign, in order.
pub fn list(
    alloc: Global,
    f: &Formula,
    positive: bool,
    scope: &Scope,
    next: u64,
    table: &mut Table,
) -> Result<Listed, NoMemory>
    ensures { IfOk result (λ r. Lists (walked f.now positive (scope_terms scope.now) (progress next table.old)) r table.new) }
{
    match f {
        Formula::True => truth_listed(alloc, positive, next),
        Formula::False => truth_listed(alloc, !positive, next),
        Formula::Atom(t) => unit_listed(alloc, positive, t, &*scope, next),
        Formula::Not(a) => list(alloc, a.get(), !positive, &*scope, next, table),
        Formula::Two(junction, a, b) => {
            let first = first_sign(*junction, positive);
            let left = list(alloc, a.get(), first, &*scope, next, table)?;
            if !is_iff(*junction) {
                let right = list(alloc, b.get(), positive, &*scope, left.next, table)?;
                return both(alloc, is_product(*junction, positive), left, right);
            }
            let right = list(alloc, b.get(), true, &*scope, left.next, table)?;
            let half = both(alloc, true, left, right)?;
            let third = list(alloc, a.get(), positive, &*scope, half.next, table)?;
            let fourth = list(alloc, b.get(), false, &*scope, third.next, table)?;
            let other = both(alloc, true, third, fourth)?;
            both(alloc, false, half, other)
        }
        Formula::Quantified(q, ty, body, inner) => {
            let opened = open(alloc, *q, ty, body.get(), positive, &*scope, next, table)?;
            let under = Scope::Under(opened.value.get(), &*scope);
            list(alloc, inner.get(), positive, &under, opened.next, table)
        }
    }
}
