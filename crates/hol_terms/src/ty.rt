ghost use Rattle.std.specs.Prelude.{◌≡◌, ◌↔◌, IsTrue, IfOk};
ghost use Rattle.hol_terms.specs.Types.{is_ty, function_ty};

use std::alloc::{AllocError, Global};
use text_kit::{NoMemory, Shared};

/// A type: a base type by its number, `Base(0)` being bool, or the functions from one type to another.
#[derive(Debug, Drop)]
pub enum Ty {
    Base(u32),
    Arrow(Shared<Ty>, Shared<Ty>),
}

/// Whether two types are the same.
pub fn same_ty(s: &Ty, t: &Ty) -> bool
    ensures test { result ≡ is_ty s.now t.now }
    ensures same { IsTrue result ↔ (s.now ≡ t.now) }
{
    match (s, t) {
        (Ty::Base(a), Ty::Base(b)) => *a == *b,
        (Ty::Arrow(a, b), Ty::Arrow(c, d)) => same_ty(a.get(), c.get())
            && same_ty(b.get(), d.get()),
        _ => false,
    }
}

/// The same type once more, in constant time and without room of its own.
pub fn copy_ty(t: &Ty) -> Result<Ty, NoMemory>
    ensures { IfOk result (λ s. s ≡ t.now) }
{
    match t {
        Ty::Base(a) => Ok(Ty::Base(*a)),
        Ty::Arrow(a, b) => Ok(Ty::Arrow(a.again()?, b.again()?)),
    }
}

/// The type of the functions from one type to another.
pub fn arrow(alloc: Global, from: Ty, to: Ty) -> Result<Ty, NoMemory>
    ensures { IfOk result (λ t. t ≡ function_ty from to) }
{
    let left = Shared::new(alloc, from)?;
    let right = Shared::new(alloc, to)?;
    Ok(Ty::Arrow(left, right))
}

impl Clone for Ty {
    ghost is_clone = { λ x y. y ≡ x };

    fn clone(&self) -> Result<Ty, AllocError> {
        match copy_ty(self) {
            Ok(t) => Ok(t),
            Err(NoMemory) => Err(AllocError),
        }
    }
}
