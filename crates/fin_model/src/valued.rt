ghost use Rattle.std.specs.Prelude.{◌≡◌};
ghost use Rattle.fin_model.specs.Given.{given};

use hol_terms::{Ty, same_ty};

/// A variable by its number and its type, with a value.
#[derive(Debug, Drop)]
pub struct Valued {
    pub n: u64,
    pub ty: Ty,
    pub value: u64,
}

/// The value that is listed first for a variable, 0 where none is.
pub(crate) fn looked_up(free: &[Valued], n: u64, ty: &Ty) -> u64
    ensures { result ≡ given free.now n ty.now }
{
    for e in free {
        if e.n == n && same_ty(&e.ty, ty) {
            return e.value;
        }
    }
    0
}
