ghost use Rattle.std.specs.Prelude.{◌≡◌, ◌∷◌, [], ◌++◌, if◌then◌else◌, OnOk};
ghost use Rattle.theory_syntax.specs.Grammar.{Whole};
ghost use Rattle.theory_print.specs.Lexemes.{laid};
ghost use Rattle.theory_print.specs.Types.{type_lexemes, type_sort, base_lexeme};

use crate::lexeme::put;
use hol_terms::Ty;
use text_kit::{Bytes, NoMemory};

fn put_base(out: &mut Bytes, types: &[Bytes], i: u32) -> Result<(), NoMemory>
    ensures { OnOk result (out.new ≡ out.old ++ laid (base_lexeme types.now i ∷ [])) }
{
    if i == 0 {
        return put(out, b"bool");
    }
    match types.get((i - 1) as usize) {
        None => put(out, b""),
        Some(name) => put(out, name.as_slice()),
    }
}

/// Appends a bracket where it is wanted.
fn put_if(out: &mut Bytes, wanted: bool, bracket: &[u8]) -> Result<(), NoMemory>
    ensures { OnOk result (out.new ≡ out.old ++ (if wanted then bracket.now ++ 32 ∷ [] else [])) }
{
    if wanted { put(out, bracket) } else { Ok(()) }
}

/// Appends a type, in brackets where an arrow may not stand outside of them (`single`).
fn put_sorted(out: &mut Bytes, types: &[Bytes], single: bool, ty: &Ty) -> Result<(), NoMemory>
    ensures { OnOk result (out.new ≡ out.old ++ laid (type_lexemes types.now ty.now (type_sort single))) }
{
    match ty {
        Ty::Base(i) => put_base(out, types, *i),
        Ty::Arrow(a, b) => {
            put_if(out, single, b"(")?;
            put_sorted(out, types, true, a.get())?;
            put(out, b"->")?;
            put_sorted(out, types, false, b.get())?;
            put_if(out, single, b")")
        }
    }
}

/// Appends a type with the fewest brackets, a blank behind each of its tokens.
///
/// The names of the base types from 1 on are those of `types`. A type whose names are declared is read again from
/// these bytes. A refused call may have appended a part.
pub fn put_type(out: &mut Bytes, types: &[Bytes], ty: &Ty) -> Result<(), NoMemory>
    ensures { OnOk result (out.new ≡ out.old ++ laid (type_lexemes types.now ty.now Whole)) }
{
    put_sorted(out, types, false, ty)
}
