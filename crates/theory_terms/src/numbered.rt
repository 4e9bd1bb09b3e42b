ghost use Rattle.std.specs.Prelude.{◌≡◌, IfOk};
ghost use Rattle.hol_terms.specs.Types.{bool_ty};

use hol_terms::{Ty, copy_ty};
use text_kit::NoMemory;

/// A type with its number in a table of types.
#[derive(Debug, Drop)]
pub(crate) struct Numbered {
    pub(crate) ty: Ty,
    pub(crate) number: u64,
}

/// `bool` with its number.
pub(crate) fn boolean() -> Numbered
    ensures { result ≡ record { ty = bool_ty; number = 0 } }
{
    Numbered {
        ty: Ty::Base(0),
        number: 0,
    }
}

/// The same once more.
pub(crate) fn copy_numbered(t: &Numbered) -> Result<Numbered, NoMemory>
    ensures { IfOk result (λ s. s ≡ t.now) }
{
    Ok(Numbered {
        ty: copy_ty(&t.ty)?,
        number: t.number,
    })
}
