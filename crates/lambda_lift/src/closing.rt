ghost use Rattle.std.specs.Prelude.{◌≡◌, ◌+◌, ◌-◌, ◌<◌, ℕ, false, if◌then◌else◌, nat_lt, map, length, ◌++◌, OnOk, IfOk};
ghost use Rattle.hol_terms.specs.declared.term.Term.{roll-Term};
ghost use Rattle.hol_terms.specs.declared.term.Term.TheOpen.{Term-F};
ghost use Rattle.lambda_lift.specs.Scopes.{scope_types};
ghost use Rattle.lambda_lift.specs.Closing.{occurs_in, variables, lambda_of, renamed, lambdas, ty_at, applied_to, closed_over};
ghost use Rattle.lambda_lift.specs.inner.Marks.{passes, MarksMore, index_in};

use crate::scope::{Scope, nth};
use hol_terms::{Term, Ty, copy_konst, copy_ty};
use std::alloc::Global;
use text_kit::{NoMemory, Rows, Shared};

/// Appends a mark that isn't set for each quantifier.
fn put_blanks(out: &mut Rows<bool>, scope: &Scope) -> Result<(), NoMemory>
    ensures { OnOk result (out.new ≡ out.old ++ map (λ a. false) (scope_types scope.now)) }
{
    match scope {
        Scope::Outside => Ok(()),
        Scope::Under(_, rest) => {
            out.push(false)?;
            put_blanks(out, *rest)
        }
    }
}

/// Marks the variables that occur in the term behind so many of its binders.
fn mark(marks: &mut Rows<bool>, t: &Term, depth: u64) -> Result<(), NoMemory>
    ensures { OnOk result (MarksMore t.now depth marks.old marks.new) }
{
    match t {
        Term::Bound(i) => {
            if *i >= depth {
                let v = (*i - depth) as usize;
                if v < marks.len() {
                    marks.set(v, true);
                }
            }
            Ok(())
        }
        Term::Free(_, _) => Ok(()),
        Term::Con(_) => Ok(()),
        Term::App(f, x) => {
            mark(marks, f.get(), depth)?;
            mark(marks, x.get(), depth)
        }
        Term::Lam(_, b) => {
            let Some(more) = depth.checked_add(1) else {
                return Err(NoMemory);
            };
            mark(marks, b.get(), more)
        }
    }
}

/// Which variables of the quantifiers occur in the term, the innermost first.
pub fn occurring(alloc: Global, scope: &Scope, t: &Term) -> Result<Rows<bool>, NoMemory>
    ensures length { IfOk result (λ marks. length marks ≡ length (scope_types scope.now)) }
    ensures marks { IfOk result (λ marks. (v : ℕ) → v < length marks → passes marks v ≡ occurs_in t.now v) }
{
    let mut marks = Rows::begin(alloc);
    put_blanks(&mut marks, scope)?;
    mark(&mut marks, t, 0)?;
    Ok(marks)
}

/// The number of marks that are set.
fn count(marks: &[bool]) -> u64
    ensures { result ≡ length (variables (passes marks.now) (length marks.now)) }
{
    let mut total = 0u64;
    for v in 0..marks.len() {
        if marks[v] {
            total += 1;
        }
    }
    total
}

/// The index that stands for each variable under lambdas over those that are marked, of which there are `total`.
fn places(alloc: Global, marks: &[bool], total: u64) -> Result<Rows<u64>, NoMemory>
    requires { total ≡ length (variables (passes marks.now) (length marks.now)) }
    ensures { IfOk result (λ places. (v : ℕ) → index_in places total v ≡ lambda_of (passes marks.now) (length marks.now) v) }
{
    let mut places = Rows::begin(alloc);
    let mut next = 0u64;
    for v in 0..marks.len() {
        if marks[v] {
            places.push(next)?;
            next += 1;
        } else {
            let Some(beyond) = total.checked_add(v as u64) else {
                return Err(NoMemory);
            };
            places.push(beyond)?;
        }
    }
    Ok(places)
}

/// The index `i` behind `depth` binders, renamed.
fn renamed_index(places: &[u64], total: u64, i: u64, depth: u64) -> Result<u64, NoMemory>
    ensures { IfOk result (λ k. k ≡ (if nat_lt i depth then i else depth + index_in places.now total (i - depth))) }
{
    if i < depth {
        return Ok(i);
    }
    let v = (i - depth) as usize;
    let sum = if v < places.len() {
        depth.checked_add(places[v])
    } else {
        i.checked_add(total)
    };
    match sum {
        Some(k) => Ok(k),
        None => Err(NoMemory),
    }
}

/// The term with its variables renamed to their places.
fn rename(alloc: Global, t: &Term, places: &[u64], total: u64, depth: u64) -> Result<Term, NoMemory>
    ensures { IfOk result (λ r. r ≡ renamed (index_in places.now total) t.now depth) }
{
    match t {
        Term::Bound(i) => Ok(Term::Bound(renamed_index(places, total, *i, depth)?)),
        Term::Free(n, a) => Ok(Term::Free(*n, copy_ty(a)?)),
        Term::Con(k) => Ok(Term::Con(copy_konst(k)?)),
        Term::App(f, x) => {
            let head = Shared::new(alloc, rename(alloc, f.get(), places, total, depth)?)?;
            let arg = Shared::new(alloc, rename(alloc, x.get(), places, total, depth)?)?;
            Ok(Term::App(head, arg))
        }
        Term::Lam(a, b) => {
            let Some(more) = depth.checked_add(1) else {
                return Err(NoMemory);
            };
            let body = Shared::new(alloc, rename(alloc, b.get(), places, total, more)?)?;
            Ok(Term::Lam(copy_ty(a)?, body))
        }
    }
}

/// The type of a quantifier's variable; bool where there is no such quantifier.
fn variable_ty(scope: &Scope, v: u64) -> Result<Ty, NoMemory>
    ensures { IfOk result (λ a. a ≡ ty_at (scope_types scope.now) v) }
{
    match nth(scope, v) {
        Some(a) => copy_ty(a),
        None => Ok(Ty::Base(0)),
    }
}

/// The term under a lambda over a quantifier's variable.
fn under_lambda(alloc: Global, scope: &Scope, v: u64, t: Term) -> Result<Term, NoMemory>
    ensures { IfOk result (λ r. r ≡ roll-Term (Term-F.Lam (ty_at (scope_types scope.now) v) t)) }
{
    let body = Shared::new(alloc, t)?;
    Ok(Term::Lam(variable_ty(scope, v)?, body))
}

/// The term under a lambda over each variable that is marked.
fn under_lambdas(alloc: Global, scope: &Scope, marks: &[bool], t: Term) -> Result<Term, NoMemory>
    ensures { IfOk result (λ r. r ≡ lambdas (map (ty_at (scope_types scope.now)) (variables (passes marks.now) (length marks.now))) t) }
{
    let mut inner = t;
    for v in 0..marks.len() {
        if marks[v] {
            inner = under_lambda(alloc, scope, v as u64, inner)?;
        }
    }
    Ok(inner)
}

/// The term closed by lambdas over the quantifiers' variables that occur in it, which the marks tell.
pub fn close(alloc: Global, scope: &Scope, marks: &Rows<bool>, t: &Term) -> Result<Term, NoMemory>
    requires length { length marks.now ≡ length (scope_types scope.now) }
    requires marks { (v : ℕ) → v < length marks.now → passes marks.now v ≡ occurs_in t.now v }
    ensures { IfOk result (λ r. r ≡ closed_over (scope_types scope.now) t.now) }
{
    let total = count(marks.as_slice());
    let places = places(alloc, marks.as_slice(), total)?;
    let body = rename(alloc, t, places.as_slice(), total, 0)?;
    under_lambdas(alloc, scope, marks.as_slice(), body)
}

/// The term applied to the variables that are marked, the outermost first.
pub fn apply_to_marked(alloc: Global, head: Term, marks: &[bool]) -> Result<Term, NoMemory>
    ensures { IfOk result (λ r. r ≡ applied_to head (variables (passes marks.now) (length marks.now))) }
{
    let mut term = head;
    let mut v = marks.len();
    while v > 0 {
        v -= 1;
        if marks[v] {
            let arg = Shared::new(alloc, Term::Bound(v as u64))?;
            term = Term::App(Shared::new(alloc, term)?, arg);
        }
    }
    Ok(term)
}
