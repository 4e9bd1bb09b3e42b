ghost use Rattle.std.specs.Prelude.{◌≡◌, IfOk, if◌then◌else◌};
ghost use Rattle.fo_terms.specs.Substitution.{put_atom};
ghost use Rattle.fol_cnf.specs.Walks.{truth as truth_of, literal, joined, appended, next_variable as variable_opened, next_choice, opened, meaning, walked};
ghost use Rattle.fol_cnf.specs.inner.Chains.{chained};
ghost use Rattle.fol_cnf.specs.inner.Listings.{Opens, Lists};

use crate::lists::{Clauses, put_together, truth, unit};
use crate::progress::Progress;
use crate::scope::Scope;
use crate::variables::occurring_under;
use fo_terms::{Atom, FoFormula, FoTerm};
use std::alloc::Global;
use text_kit::NoMemory;

/// Clauses, and the next numbers behind them.
#[derive(Drop)]
pub struct Listed {
    pub clauses: Clauses,
    pub after: Progress,
}

/// The term put for a quantifier's variable, and the next numbers behind it.
#[derive(Drop)]
pub struct Opened {
    pub value: FoTerm,
    pub after: Progress,
}

fn truth_listed(alloc: Global, holds: bool, at: Progress) -> Result<Listed, NoMemory>
    ensures { IfOk result (λ r. (r.clauses ≡ truth_of holds) × (r.after ≡ at)) }
{
    Ok(Listed {
        clauses: truth(alloc, holds)?,
        after: at,
    })
}

fn unit_listed(
    alloc: Global,
    positive: bool,
    atom: &Atom,
    scope: &Scope,
    at: Progress,
) -> Result<Listed, NoMemory>
    ensures { IfOk result (λ r. (r.clauses ≡ literal positive (put_atom (chained scope.now) atom.now)) × (r.after ≡ at)) }
{
    Ok(Listed {
        clauses: unit(alloc, positive, atom, &*scope)?,
        after: at,
    })
}

fn both(alloc: Global, is_product: bool, left: Listed, right: Listed) -> Result<Listed, NoMemory>
    ensures { IfOk result (λ r. (r.clauses ≡ (if is_product then joined else appended) left.clauses right.clauses) × (r.after ≡ right.after)) }
{
    let after = right.after;
    let clauses = put_together(alloc, is_product, left.clauses, right.clauses)?;
    Ok(Listed { clauses, after })
}

/// The next variable.
fn next_variable(at: Progress) -> Result<Opened, NoMemory>
    ensures { IfOk result (λ o. Opens (variable_opened at) o) }
{
    match at.variable.checked_add(1) {
        Some(variable) => Ok(Opened {
            value: FoTerm::Var(at.variable),
            after: Progress {
                variable,
                symbol: at.symbol,
            },
        }),
        None => Err(NoMemory),
    }
}

/// The next new symbol, applied to the variables that occur in the quantified formula.
fn choose(
    alloc: Global,
    x: u64,
    body: &FoFormula,
    scope: &Scope,
    at: Progress,
) -> Result<Opened, NoMemory>
    ensures { IfOk result (λ o. Opens (next_choice x (meaning body.now) (chained scope.now) at) o) }
{
    let args = occurring_under(alloc, x, body, &*scope)?;
    match at.symbol.checked_add(1) {
        Some(symbol) => Ok(Opened {
            value: FoTerm::Fun(at.symbol, args),
            after: Progress {
                variable: at.variable,
                symbol,
            },
        }),
        None => Err(NoMemory),
    }
}

/// The term put for the variable of a quantifier.
fn open(
    alloc: Global,
    universal: bool,
    x: u64,
    body: &FoFormula,
    scope: &Scope,
    at: Progress,
) -> Result<Opened, NoMemory>
    ensures { IfOk result (λ o. Opens (opened universal x (meaning body.now) (chained scope.now) at) o) }
{
    if universal {
        next_variable(at)
    } else {
        choose(alloc, x, body, &*scope, at)
    }
}

/// The clauses of the formula with this sign, in order.
pub fn list(
    alloc: Global,
    f: &FoFormula,
    positive: bool,
    scope: &Scope,
    at: Progress,
) -> Result<Listed, NoMemory>
    ensures { IfOk result (λ r. Lists (walked f.now positive (chained scope.now) at) r) }
{
    match f {
        FoFormula::True => truth_listed(alloc, positive, at),
        FoFormula::False => truth_listed(alloc, !positive, at),
        FoFormula::Atom(a) => unit_listed(alloc, positive, a, &*scope, at),
        FoFormula::Not(a) => list(alloc, a.get(), !positive, &*scope, at),
        FoFormula::And(a, b) => {
            let left = list(alloc, a.get(), positive, &*scope, at)?;
            let right = list(alloc, b.get(), positive, &*scope, left.after)?;
            both(alloc, !positive, left, right)
        }
        FoFormula::Or(a, b) => {
            let left = list(alloc, a.get(), positive, &*scope, at)?;
            let right = list(alloc, b.get(), positive, &*scope, left.after)?;
            both(alloc, positive, left, right)
        }
        FoFormula::Imp(a, b) => {
            let left = list(alloc, a.get(), !positive, &*scope, at)?;
            let right = list(alloc, b.get(), positive, &*scope, left.after)?;
            both(alloc, positive, left, right)
        }
        FoFormula::Iff(a, b) => {
            let first = list(alloc, a.get(), !positive, &*scope, at)?;
            let second = list(alloc, b.get(), true, &*scope, first.after)?;
            let half = both(alloc, true, first, second)?;
            let third = list(alloc, a.get(), positive, &*scope, half.after)?;
            let fourth = list(alloc, b.get(), false, &*scope, third.after)?;
            let other = both(alloc, true, third, fourth)?;
            both(alloc, false, half, other)
        }
        FoFormula::Each(x, b) => {
            let opened = open(alloc, positive, *x, b.get(), &*scope, at)?;
            let under = Scope::Under(*x, &opened.value, &*scope);
            list(alloc, b.get(), positive, &under, opened.after)
        }
        FoFormula::One(x, b) => {
            let opened = open(alloc, !positive, *x, b.get(), &*scope, at)?;
            let under = Scope::Under(*x, &opened.value, &*scope);
            list(alloc, b.get(), positive, &under, opened.after)
        }
    }
}
