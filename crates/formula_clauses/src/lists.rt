ghost use Rattle.std.specs.Prelude.{◌≡◌, ◌++◌, map, IfOk, OnOk, if◌then◌else◌};
ghost use Rattle.formula_clauses.specs.Choices.{put_in as put_in_all};
ghost use Rattle.formula_clauses.specs.Walks.{truth as truth_of, literal as literal_of, joined, appended};
ghost use Rattle.formula_clauses.specs.inner.Scopes.{scope_terms};

use crate::scope::{Scope, put_in};
use hol_terms::{Term, TypedLiteral};
use std::alloc::Global;
use text_kit::{NoMemory, Rows};

/// A clause: a list of literals, one of which holds.
pub type Clause = Rows<TypedLiteral>;

/// Clauses, all of which hold.
pub type Clauses = Rows<Rows<TypedLiteral>>;

/// No clause where it is true, and the empty clause where it is false.
pub fn truth(alloc: Global, holds: bool) -> Result<Clauses, NoMemory>
    ensures { IfOk result (λ cs. cs ≡ truth_of holds) }
{
    let mut clauses = Rows::begin(alloc);
    if !holds {
        clauses.push(Rows::begin(alloc))?;
    }
    Ok(clauses)
}

/// The one clause of an atom, with the scope's terms in it.
pub fn unit(alloc: Global, positive: bool, t: &Term, scope: &Scope) -> Result<Clauses, NoMemory>
    ensures { IfOk result (λ cs. cs ≡ literal_of positive (put_in_all (scope_terms scope.now) t.now 0)) }
{
    let atom = put_in(alloc, t, &*scope, 0)?;
    let mut clause = Rows::begin(alloc);
    clause.push(TypedLiteral { positive, atom })?;
    let mut clauses = Rows::begin(alloc);
    clauses.push(clause)?;
    Ok(clauses)
}

/// All of these items, moved, and then all of those.
fn appended_vec<T: Drop>(mut items: Vec<T>, mut more: Vec<T>) -> Result<Vec<T>, NoMemory>
    ensures { IfOk result (λ r. r.items ≡ items.items ++ more.items) }
{
    match items.append(&mut more) {
        Ok(()) => Ok(items),
        Err(_) => Err(NoMemory),
    }
}

/// The literals of two clauses.
fn union(alloc: Global, c: &Clause, d: &Clause) -> Result<Clause, NoMemory>
    ensures { IfOk result (λ r. r ≡ c.now ++ d.now) }
{
    let left = c.copy(alloc)?.into_vec();
    let right = d.copy(alloc)?.into_vec();
    Ok(Rows::from_vec(appended_vec(left, right)?))
}

/// Appends the clause with each of these.
fn put_with_each(
    alloc: Global,
    out: &mut Clauses,
    c: &Clause,
    ds: &[Clause],
) -> Result<(), NoMemory>
    ensures { OnOk result (out.new ≡ out.old ++ map (λ d. c.now ++ d) ds.now) }
{
    match ds {
        [] => Ok(()),
        [d, rest @ ..] => {
            out.push(union(alloc, c, d)?)?;
            put_with_each(alloc, out, c, rest)
        }
    }
}

/// Appends each of the left clauses with each of the right ones.
fn put_joined(
    alloc: Global,
    out: &mut Clauses,
    cs: &[Clause],
    ds: &[Clause],
) -> Result<(), NoMemory>
    ensures { OnOk result (out.new ≡ out.old ++ joined cs.now ds.now) }
{
    match cs {
        [] => Ok(()),
        [c, rest @ ..] => {
            put_with_each(alloc, out, c, ds)?;
            put_joined(alloc, out, rest, ds)
        }
    }
}

/// One list of two: each clause with each, or all clauses.
pub fn put_together(
    alloc: Global,
    product: bool,
    left: Clauses,
    right: Clauses,
) -> Result<Clauses, NoMemory>
    ensures { IfOk result (λ cs. cs ≡ (if product then joined else appended) left right) }
{
    if product {
        let mut out = Rows::begin(alloc);
        put_joined(alloc, &mut out, left.as_slice(), right.as_slice())?;
        Ok(out)
    } else {
        Ok(Rows::from_vec(appended_vec(left.into_vec(), right.into_vec())?))
    }
}
