ghost use Rattle.std.specs.Prelude.{◌≡◌, ◌↔◌, IsTrue, IfOk};

use crate::{Konst, Ty, copy_konst, copy_ty, same_konst, same_ty};
use std::alloc::AllocError;
use text_kit::{NoMemory, Shared};

/// A term. `Bound` is a de Bruijn index, the innermost binder being 0. `Free` is a variable by its number and
/// its type; variables of one number and two types are two variables.
#[derive(Debug, Drop)]
pub enum Term {
    Bound(u64),
    Free(u64, Ty),
    Con(Konst),
    App(Shared<Term>, Shared<Term>),
    Lam(Ty, Shared<Term>),
}

/// Whether two terms are the same.
pub fn same(s: &Term, t: &Term) -> bool
    ensures { IsTrue result ↔ (s.now ≡ t.now) }
{
    match (s, t) {
        (Term::Bound(a), Term::Bound(b)) => *a == *b,
        (Term::Free(a, x), Term::Free(b, y)) => *a == *b && same_ty(x, y),
        (Term::Con(a), Term::Con(b)) => same_konst(a, b),
        (Term::App(a, x), Term::App(b, y)) => same(a.get(), b.get()) && same(x.get(), y.get()),
        (Term::Lam(x, a), Term::Lam(y, b)) => same_ty(x, y) && same(a.get(), b.get()),
        _ => false,
    }
}

/// The same term once more, in constant time and without room of its own.
pub fn copy(t: &Term) -> Result<Term, NoMemory>
    ensures { IfOk result (λ s. s ≡ t.now) }
{
    match t {
        Term::Bound(a) => Ok(Term::Bound(*a)),
        Term::Free(a, ty) => Ok(Term::Free(*a, copy_ty(ty)?)),
        Term::Con(k) => Ok(Term::Con(copy_konst(k)?)),
        Term::App(f, x) => Ok(Term::App(f.again()?, x.again()?)),
        Term::Lam(ty, b) => Ok(Term::Lam(copy_ty(ty)?, b.again()?)),
    }
}

impl Clone for Term {
    ghost is_clone = { λ x y. y ≡ x };

    fn clone(&self) -> Result<Term, AllocError> {
        match copy(self) {
            Ok(t) => Ok(t),
            Err(NoMemory) => Err(AllocError),
        }
    }
}
