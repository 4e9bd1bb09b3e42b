ghost use Rattle.std.specs.Prelude.{◌≡◌, length, IfOk, nat_lt, if◌then◌else◌, ◌+◌};
ghost use Rattle.formula_clauses.specs.Choices.{closed_over, closed_ty as ty_of_closed, applied_to as applied};
ghost use Rattle.formula_clauses.specs.inner.Binding.{place_of, bound_at, bound_by, lambdas};

use crate::variables::Variable;
use hol_terms::{Term, Ty, arrow, copy_konst, copy_ty, same_ty};
use kernel_rules::{apply, lambda};
use std::alloc::Global;
use text_kit::{NoMemory, Shared};

/// The index of a variable's lambda, counted from the innermost, which is that of the last variable.
fn place(vs: &[Variable], m: u64, ty: &Ty) -> Option<u64>
    ensures { result ≡ place_of vs.now m ty.now }
{
    match vs {
        [] => None,
        [v, rest @ ..] => match place(rest, m, ty) {
            Some(j) => Some(j),
            None => {
                if m == v.0 && same_ty(ty, &v.1) {
                    Some(rest.len() as u64)
                } else {
                    None
                }
            }
        },
    }
}

/// A variable behind `depth` binders: the index of its lambda, or itself where it has none.
fn bind_free(vs: &[Variable], m: u64, ty: &Ty, depth: u64) -> Result<Term, NoMemory>
    ensures { IfOk result (λ r. r ≡ bound_at (place_of vs.now m ty.now) m ty.now depth) }
{
    match place(vs, m, ty) {
        Some(j) => match depth.checked_add(j) {
            Some(i) => Ok(Term::Bound(i)),
            None => Err(NoMemory),
        },
        None => Ok(Term::Free(m, copy_ty(ty)?)),
    }
}

/// An index behind `depth` binders, with the variables' lambdas further out.
fn bind_index(vs: &[Variable], i: u64, depth: u64) -> Result<u64, NoMemory>
    ensures { IfOk result (λ k. k ≡ (if nat_lt i depth then i else i + length vs.now)) }
{
    if i < depth {
        return Ok(i);
    }
    match i.checked_add(vs.len() as u64) {
        Some(k) => Ok(k),
        None => Err(NoMemory),
    }
}

/// The term with all variables bound at once.
fn bind(alloc: Global, t: &Term, vs: &[Variable], depth: u64) -> Result<Term, NoMemory>
    ensures { IfOk result (λ r. r ≡ bound_by vs.now t.now depth) }
{
    match t {
        Term::Bound(i) => Ok(Term::Bound(bind_index(vs, *i, depth)?)),
        Term::Free(m, a) => bind_free(vs, *m, a, depth),
        Term::Con(k) => Ok(Term::Con(copy_konst(k)?)),
        Term::App(f, x) => {
            let head = Shared::new(alloc, bind(alloc, f.get(), vs, depth)?)?;
            let arg = Shared::new(alloc, bind(alloc, x.get(), vs, depth)?)?;
            Ok(Term::App(head, arg))
        }
        Term::Lam(a, b) => {
            let Some(more) = depth.checked_add(1) else {
                return Err(NoMemory);
            };
            let body = Shared::new(alloc, bind(alloc, b.get(), vs, more)?)?;
            Ok(Term::Lam(copy_ty(a)?, body))
        }
    }
}

fn under_lambdas(alloc: Global, vs: &[Variable], t: Term) -> Result<Term, NoMemory>
    ensures { IfOk result (λ r. r ≡ lambdas vs.now t) }
{
    match vs {
        [] => Ok(t),
        [v, rest @ ..] => {
            let inner = under_lambdas(alloc, rest, t)?;
            lambda(alloc, copy_ty(&v.1)?, inner)
        }
    }
}

/// `\x1..xn. t`, in one walk over the term.
pub fn close(alloc: Global, vs: &[Variable], t: &Term) -> Result<Term, NoMemory>
    ensures { IfOk result (λ r. r ≡ closed_over vs.now t.now) }
{
    let body = bind(alloc, t, vs, 0)?;
    under_lambdas(alloc, vs, body)
}

/// The type of `\x1..xn. t`, by that of `t`.
pub fn closed_ty(alloc: Global, vs: &[Variable], ty: &Ty) -> Result<Ty, NoMemory>
    ensures { IfOk result (λ r. r ≡ ty_of_closed vs.now ty.now) }
{
    match vs {
        [] => copy_ty(ty),
        [v, rest @ ..] => {
            let to = closed_ty(alloc, rest, ty)?;
            arrow(alloc, copy_ty(&v.1)?, to)
        }
    }
}

/// `f x1 .. xn`
pub fn apply_to(alloc: Global, f: Term, vs: &[Variable]) -> Result<Term, NoMemory>
    ensures { IfOk result (λ r. r ≡ applied f vs.now) }
{
    match vs {
        [] => Ok(f),
        [v, rest @ ..] => {
            let next = apply(alloc, f, Term::Free(v.0, copy_ty(&v.1)?))?;
            apply_to(alloc, next, rest)
        }
    }
}
