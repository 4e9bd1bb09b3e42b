ghost use Rattle.std.specs.Prelude.{◌≡◌, ◌++◌, OnOk};
ghost use Rattle.proof_syntax.specs.Texts.{type_text};
ghost use Rattle.proof_text.specs.inner.Vocabularies.{declared_names};

use crate::names::{Vocabulary, put_type_name};
use hol_terms::Ty;
use text_kit::{Bytes, NoMemory};

/// Appends a type, each arrow in brackets.
pub(crate) fn put_type(out: &mut Bytes, names: &Vocabulary, ty: &Ty) -> Result<(), NoMemory>
    ensures { OnOk result (out.new ≡ out.old ++ type_text (declared_names names.now) ty.now) }
{
    match ty {
        Ty::Base(number) => put_type_name(out, names, *number),
        Ty::Arrow(from, to) => {
            out.push(b'(')?;
            put_type(out, names, from.get())?;
            out.push(b'>')?;
            put_type(out, names, to.get())?;
            out.push(b')')
        }
    }
}
