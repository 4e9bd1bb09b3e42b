ghost use Rattle.std.specs.Prelude.{◌≡◌, ◌∷◌, [], ◌++◌, OnOk};
ghost use Rattle.theory_print.specs.Lexemes.{Name, Sign, Truth, Binder, laid};
ghost use Rattle.theory_print.specs.Names.{variable};

use text_kit::{Bytes, NoMemory, put_decimal};
use theory_syntax::{Op, Quant};

/// Appends a lexeme, with a blank behind it.
pub(crate) fn put(out: &mut Bytes, piece: &[u8]) -> Result<(), NoMemory>
    ensures { OnOk result (out.new ≡ out.old ++ (piece.now ++ 32 ∷ [])) }
{
    out.append(piece)?;
    out.push(b' ')
}

/// Appends the name of a binder that stands in `depth` others.
pub(crate) fn put_variable(out: &mut Bytes, number: u32, depth: u64) -> Result<(), NoMemory>
    ensures { OnOk result (out.new ≡ out.old ++ laid (Name (variable number depth) ∷ [])) }
{
    out.append(b"x")?;
    put_decimal(out, number as u64)?;
    out.append(b"_")?;
    put_decimal(out, depth)?;
    out.push(b' ')
}

pub(crate) fn put_sign(out: &mut Bytes, op: Op) -> Result<(), NoMemory>
    ensures { OnOk result (out.new ≡ out.old ++ laid (Sign op ∷ [])) }
{
    match op {
        Op::Imp => put(out, b"==>"),
        Op::Or => put(out, b"|"),
        Op::And => put(out, b"&"),
    }
}

pub(crate) fn put_binder(out: &mut Bytes, q: Quant) -> Result<(), NoMemory>
    ensures { OnOk result (out.new ≡ out.old ++ laid (Binder q ∷ [])) }
{
    match q {
        Quant::All => put(out, b"!"),
        Quant::Ex => put(out, b"?"),
        Quant::Lambda => put(out, b"\\"),
        Quant::Eps => put(out, b"@"),
    }
}

pub(crate) fn put_truth(out: &mut Bytes, value: bool) -> Result<(), NoMemory>
    ensures { OnOk result (out.new ≡ out.old ++ laid (Truth value ∷ [])) }
{
    if value {
        put(out, b"true")
    } else {
        put(out, b"false")
    }
}
