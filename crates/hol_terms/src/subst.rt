ghost use Rattle.std.specs.Prelude.{◌≡◌, IsTrue, IfOk};
ghost use Rattle.hol_terms.specs.Substitution.{put, instantiated, is_closed, abstracted, abstracted_at, closed_under, put_free as replaced, one_put, occurs};

use crate::{Term, Ty, copy, copy_konst, copy_ty, same_ty};
use std::alloc::Global;
use text_kit::{NoMemory, Shared};

fn put_at(alloc: Global, t: &Term, u: &Term, depth: u64) -> Result<Term, NoMemory>
    requires { IsTrue (is_closed u.now) }
    ensures { IfOk result (λ r. r ≡ put u.now t.now depth) }
{
    match t {
        Term::Bound(i) => {
            if *i < depth {
                Ok(Term::Bound(*i))
            } else if *i == depth {
                copy(u)
            } else {
                Ok(Term::Bound(*i - 1))
            }
        }
        Term::Free(n, a) => Ok(Term::Free(*n, copy_ty(a)?)),
        Term::Con(k) => Ok(Term::Con(copy_konst(k)?)),
        Term::App(f, x) => {
            let head = Shared::new(alloc, put_at(alloc, f.get(), u, depth)?)?;
            let arg = Shared::new(alloc, put_at(alloc, x.get(), u, depth)?)?;
            Ok(Term::App(head, arg))
        }
        Term::Lam(a, b) => {
            let Some(more) = depth.checked_add(1) else {
                return Err(NoMemory);
            };
            let body = Shared::new(alloc, put_at(alloc, b.get(), u, more)?)?;
            Ok(Term::Lam(copy_ty(a)?, body))
        }
    }
}

/// `body` with `u`, which has no loose index, for index 0.
pub fn instantiate(alloc: Global, body: &Term, u: &Term) -> Result<Term, NoMemory>
    requires { IsTrue (is_closed u.now) }
    ensures { IfOk result (λ r. r ≡ instantiated body.now u.now) }
{
    put_at(alloc, body, u, 0)
}

fn bind_at(alloc: Global, t: &Term, n: u64, ty: &Ty, depth: u64) -> Result<Term, NoMemory>
    requires { IsTrue (closed_under t.now depth) }
    ensures { IfOk result (λ r. r ≡ abstracted_at n ty.now t.now depth) }
{
    match t {
        Term::Bound(i) => Ok(Term::Bound(*i)),
        Term::Free(m, a) => {
            if *m == n && same_ty(a, ty) {
                Ok(Term::Bound(depth))
            } else {
                Ok(Term::Free(*m, copy_ty(a)?))
            }
        }
        Term::Con(k) => Ok(Term::Con(copy_konst(k)?)),
        Term::App(f, x) => {
            let head = Shared::new(alloc, bind_at(alloc, f.get(), n, ty, depth)?)?;
            let arg = Shared::new(alloc, bind_at(alloc, x.get(), n, ty, depth)?)?;
            Ok(Term::App(head, arg))
        }
        Term::Lam(a, b) => {
            let Some(more) = depth.checked_add(1) else {
                return Err(NoMemory);
            };
            let body = Shared::new(alloc, bind_at(alloc, b.get(), n, ty, more)?)?;
            Ok(Term::Lam(copy_ty(a)?, body))
        }
    }
}

/// `t`, which has no loose index, with `Free(n, ty)` as index 0 of a body.
pub fn abstract_over(alloc: Global, t: &Term, n: u64, ty: &Ty) -> Result<Term, NoMemory>
    requires { IsTrue (is_closed t.now) }
    ensures { IfOk result (λ r. r ≡ abstracted n ty.now t.now) }
{
    bind_at(alloc, t, n, ty, 0)
}

/// `t` with `u` for each `Free(n, ty)`. An index of `u` stays as it is under the binders of `t`.
pub fn put_free(alloc: Global, t: &Term, n: u64, ty: &Ty, u: &Term) -> Result<Term, NoMemory>
    ensures { IfOk result (λ r. r ≡ replaced (one_put n ty.now u.now) t.now) }
{
    match t {
        Term::Bound(i) => Ok(Term::Bound(*i)),
        Term::Free(m, a) => {
            if *m == n && same_ty(a, ty) {
                copy(u)
            } else {
                Ok(Term::Free(*m, copy_ty(a)?))
            }
        }
        Term::Con(k) => Ok(Term::Con(copy_konst(k)?)),
        Term::App(f, x) => {
            let head = Shared::new(alloc, put_free(alloc, f.get(), n, ty, u)?)?;
            let arg = Shared::new(alloc, put_free(alloc, x.get(), n, ty, u)?)?;
            Ok(Term::App(head, arg))
        }
        Term::Lam(a, b) => {
            let body = Shared::new(alloc, put_free(alloc, b.get(), n, ty, u)?)?;
            Ok(Term::Lam(copy_ty(a)?, body))
        }
    }
}

/// Whether `Free(n, ty)` occurs in the term. It takes no memory.
pub fn free_in(n: u64, ty: &Ty, t: &Term) -> bool
    ensures { result ≡ occurs n ty.now t.now }
{
    match t {
        Term::Bound(_) => false,
        Term::Free(m, a) => *m == n && same_ty(a, ty),
        Term::Con(_) => false,
        Term::App(f, x) => free_in(n, ty, f.get()) || free_in(n, ty, x.get()),
        Term::Lam(_, b) => free_in(n, ty, b.get()),
    }
}
