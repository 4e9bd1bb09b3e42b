ghost use Rattle.std.specs.Prelude.{◌≡◌, [], ◌∷◌, ◌++◌, map, IfOk, OnOk, if◌then◌else◌};
ghost use Rattle.fo_terms.specs.Substitution.{put_atom};
ghost use Rattle.fol_cnf.specs.Walks.{truth as truth_of, literal as literal_of, joined, appended};
ghost use Rattle.fol_cnf.specs.inner.Chains.{chained};

use crate::scope::{Scope, put_in_atom};
use fo_terms::{Atom, Literal};
use std::alloc::Global;
use text_kit::{NoMemory, Rows};

/// A clause's literals, one of which holds.
pub type Literals = Rows<Literal>;

/// Clauses, all of which hold.
pub type Clauses = Rows<Rows<Literal>>;

/// No clause where it is true, and the empty clause where it is false.
pub fn truth(alloc: Global, holds: bool) -> Result<Clauses, NoMemory>
    ensures { IfOk result (λ cs. cs ≡ truth_of holds) }
{
    let mut clauses = Rows::begin(alloc);
    if !holds {
        clauses.push(Rows::begin(alloc))?;
    }
    Ok(clauses)
}

/// The one clause of an atom, with the scope's terms in it.
pub fn unit(alloc: Global, positive: bool, atom: &Atom, scope: &Scope) -> Result<Clauses, NoMemory>
    ensures { IfOk result (λ cs. cs ≡ literal_of positive (put_atom (chained scope.now) atom.now)) }
{
    let atom = put_in_atom(alloc, atom, &*scope)?;
    let mut clause = Rows::begin(alloc);
    clause.push(Literal { positive, atom })?;
    let mut clauses = Rows::begin(alloc);
    clauses.push(clause)?;
    Ok(clauses)
}

/// All of these items, moved, and then all of those.
fn appended_vec<T: Drop>(mut items: Vec<T>, mut more: Vec<T>) -> Result<Vec<T>, NoMemory>
    ensures { IfOk result (λ r. r.items ≡ items.items ++ more.items) }
{
    match items.append(&mut more) {
        Ok(()) => Ok(items),
        Err(_) => Err(NoMemory),
    }
}

/// The literals of two clauses.
fn union(alloc: Global, c: &Literals, d: &Literals) -> Result<Literals, NoMemory>
    ensures { IfOk result (λ r. r ≡ c.now ++ d.now) }
{
    let left = c.copy(alloc)?.into_vec();
    let right = d.copy(alloc)?.into_vec();
    Ok(Rows::from_vec(appended_vec(left, right)?))
}

/// Appends the clause with each of these.
fn put_with_each(
    alloc: Global,
    out: &mut Clauses,
    c: &Literals,
    ds: &[Literals],
) -> Result<(), NoMemory>
    ensures { OnOk result (out.new ≡ out.old ++ map (λ d. c.now ++ d) ds.now) }
{
    match ds {
        [] => Ok(()),
        [d, rest @ ..] => {
            out.push(union(alloc, c, d)?)?;
            put_with_each(alloc, out, c, rest)
        }
    }
}

/// Appends each of the left clauses with each of the right ones.
fn put_joined(
    alloc: Global,
    out: &mut Clauses,
    cs: &[Literals],
    ds: &[Literals],
) -> Result<(), NoMemory>
    ensures { OnOk result (out.new ≡ out.old ++ joined cs.now ds.now) }
{
    match cs {
        [] => Ok(()),
        [c, rest @ ..] => {
            put_with_each(alloc, out, c, ds)?;
            put_joined(alloc, out, rest, ds)
        }
    }
}

/// The literals of two clauses, the first ones moved.
fn lengthened(alloc: Global, c: Literals, d: &Literals) -> Result<Literals, NoMemory>
    ensures { IfOk result (λ r. r ≡ c ++ d.now) }
{
    let more = d.copy(alloc)?.into_vec();
    Ok(Rows::from_vec(appended_vec(c.into_vec(), more)?))
}

/// Each of the clauses with one more behind it. Their literals are moved, so that a long chain costs no more than its length.
fn all_lengthened(alloc: Global, cs: Clauses, d: &Literals) -> Result<Clauses, NoMemory>
    ensures { IfOk result (λ r. r ≡ joined cs (d.now ∷ [])) }
{
    let mut out = Rows::begin(alloc);
    for c in cs.into_vec() {
        out.push(lengthened(alloc, c, d)?)?;
    }
    Ok(out)
}

/// The literals of two clauses, the last ones moved.
fn preceded(alloc: Global, c: &Literals, d: Literals) -> Result<Literals, NoMemory>
    ensures { IfOk result (λ r. r ≡ c.now ++ d) }
{
    let front = c.copy(alloc)?.into_vec();
    Ok(Rows::from_vec(appended_vec(front, d.into_vec())?))
}

/// Each of the clauses with one more before it. Their literals are moved, so that none is copied again at each level of a nest.
fn all_preceded(alloc: Global, c: &Literals, ds: Clauses) -> Result<Clauses, NoMemory>
    ensures { IfOk result (λ r. r ≡ joined (c.now ∷ []) ds) }
{
    let mut out = Rows::begin(alloc);
    for d in ds.into_vec() {
        out.push(preceded(alloc, c, d)?)?;
    }
    Ok(out)
}

/// Each clause with each.
fn product(alloc: Global, left: Clauses, right: Clauses) -> Result<Clauses, NoMemory>
    ensures { IfOk result (λ cs. cs ≡ joined left right) }
{
    if let [d] = right.as_slice() {
        return all_lengthened(alloc, left, d);
    }
    if let [c] = left.as_slice() {
        return all_preceded(alloc, c, right);
    }
    let mut out = Rows::begin(alloc);
    put_joined(alloc, &mut out, left.as_slice(), right.as_slice())?;
    Ok(out)
}

/// One list of two: each clause with each, or all clauses.
pub fn put_together(
    alloc: Global,
    is_product: bool,
    left: Clauses,
    right: Clauses,
) -> Result<Clauses, NoMemory>
    ensures { IfOk result (λ cs. cs ≡ (if is_product then joined else appended) left right) }
{
    if is_product {
        product(alloc, left, right)
    } else {
        Ok(Rows::from_vec(appended_vec(left.into_vec(), right.into_vec())?))
    }
}
