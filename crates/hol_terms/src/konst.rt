ghost use Rattle.std.specs.Prelude.{◌≡◌, ◌↔◌, IsTrue, IfOk};

use crate::{Ty, copy_ty, same_ty};
use std::alloc::AllocError;
use text_kit::NoMemory;

/// A constant.
///
/// `Named` is a constant of the theory by its number. `Aux` stands for a closed term of a table that is kept
/// beside the terms; no theorem holds one. The types of `Eq`, `All`, `Ex` and `Eps` are those of the sides and
/// of the bound variable.
#[derive(Debug, Drop)]
pub enum Konst {
    Named(u32),
    Aux(u64),
    True,
    False,
    Not,
    And,
    Or,
    Imp,
    Eq(Ty),
    All(Ty),
    Ex(Ty),
    Eps(Ty),
}

/// Whether two constants are the same.
pub fn same_konst(s: &Konst, t: &Konst) -> bool
    ensures { IsTrue result ↔ (s.now ≡ t.now) }
{
    match (s, t) {
        (Konst::Named(a), Konst::Named(b)) => *a == *b,
        (Konst::Aux(a), Konst::Aux(b)) => *a == *b,
        (Konst::True, Konst::True) => true,
        (Konst::False, Konst::False) => true,
        (Konst::Not, Konst::Not) => true,
        (Konst::And, Konst::And) => true,
        (Konst::Or, Konst::Or) => true,
        (Konst::Imp, Konst::Imp) => true,
        (Konst::Eq(a), Konst::Eq(b)) => same_ty(a, b),
        (Konst::All(a), Konst::All(b)) => same_ty(a, b),
        (Konst::Ex(a), Konst::Ex(b)) => same_ty(a, b),
        (Konst::Eps(a), Konst::Eps(b)) => same_ty(a, b),
        _ => false,
    }
}

/// The same constant once more, in constant time and without room of its own.
pub fn copy_konst(t: &Konst) -> Result<Konst, NoMemory>
    ensures { IfOk result (λ s. s ≡ t.now) }
{
    match t {
        Konst::Named(a) => Ok(Konst::Named(*a)),
        Konst::Aux(a) => Ok(Konst::Aux(*a)),
        Konst::True => Ok(Konst::True),
        Konst::False => Ok(Konst::False),
        Konst::Not => Ok(Konst::Not),
        Konst::And => Ok(Konst::And),
        Konst::Or => Ok(Konst::Or),
        Konst::Imp => Ok(Konst::Imp),
        Konst::Eq(a) => Ok(Konst::Eq(copy_ty(a)?)),
        Konst::All(a) => Ok(Konst::All(copy_ty(a)?)),
        Konst::Ex(a) => Ok(Konst::Ex(copy_ty(a)?)),
        Konst::Eps(a) => Ok(Konst::Eps(copy_ty(a)?)),
    }
}

impl Clone for Konst {
    ghost is_clone = { λ x y. y ≡ x };

    fn clone(&self) -> Result<Konst, AllocError> {
        match copy_konst(self) {
            Ok(k) => Ok(k),
            Err(NoMemory) => Err(AllocError),
        }
    }
}
