ghost use Rattle.std.specs.Prelude.{◌≡◌, ◌∷◌, ◌++◌, decimal, OnOk, IsTrue};
ghost use Rattle.proof_syntax.specs.Texts.{with_type, konst_text, term_text};
ghost use Rattle.proof_text.specs.inner.Fitting.{fits, term_fits};
ghost use Rattle.proof_text.specs.inner.Vocabularies.{declared_names};

use crate::names::{Vocabulary, put_const_name};
use crate::types::put_type;
use hol_terms::{Konst, Term, Ty};
use text_kit::{Bytes, NoMemory, put_decimal};

/// Appends a sign and a number.
fn put_numbered(out: &mut Bytes, sign: u8, number: u64) -> Result<(), NoMemory>
    ensures text { OnOk result (out.new ≡ out.old ++ sign ∷ decimal number) }
    ensures fits { IsTrue (fits number) }
{
    out.push(sign)?;
    put_decimal(out, number)
}

/// Appends a word with a type in square brackets.
fn put_with_type(out: &mut Bytes, names: &Vocabulary, word: &[u8], ty: &Ty) -> Result<(), NoMemory>
    ensures { OnOk result (out.new ≡ out.old ++ with_type (declared_names names.now) word.now ty.now) }
{
    out.append(word)?;
    out.push(b'[')?;
    put_type(out, names, ty)?;
    out.push(b']')
}

fn put_konst(out: &mut Bytes, names: &Vocabulary, konst: &Konst) -> Result<(), NoMemory>
    ensures { OnOk result (out.new ≡ out.old ++ konst_text (declared_names names.now) konst.now) }
{
    match konst {
        Konst::Named(number) => {
            out.push(b'.')?;
            put_const_name(out, names, *number)
        }
        Konst::Aux(_) => Ok(()),
        Konst::True => out.append(b"true"),
        Konst::False => out.append(b"false"),
        Konst::Not => out.append(b"not"),
        Konst::And => out.append(b"and"),
        Konst::Or => out.append(b"or"),
        Konst::Imp => out.append(b"imp"),
        Konst::Eq(ty) => put_with_type(out, names, b"eq", ty),
        Konst::All(ty) => put_with_type(out, names, b"all", ty),
        Konst::Ex(ty) => put_with_type(out, names, b"ex", ty),
        Konst::Eps(ty) => put_with_type(out, names, b"eps", ty),
    }
}

/// Appends a term, each application in brackets. An auxiliary constant, which no proof holds, leaves no bytes.
pub(crate) fn put_term(out: &mut Bytes, names: &Vocabulary, term: &Term) -> Result<(), NoMemory>
    ensures text { OnOk result (out.new ≡ out.old ++ term_text (declared_names names.now) term.now) }
    ensures fits { OnOk result (IsTrue (term_fits term.now)) }
{
    match term {
        Term::Bound(number) => put_numbered(out, b'#', *number),
        Term::Free(number, ty) => {
            put_numbered(out, b'$', *number)?;
            out.push(b':')?;
            put_type(out, names, ty)
        }
        Term::Con(konst) => put_konst(out, names, konst),
        Term::App(function, argument) => {
            out.push(b'(')?;
            put_term(out, names, function.get())?;
            out.push(b' ')?;
            put_term(out, names, argument.get())?;
            out.push(b')')
        }
        Term::Lam(ty, body) => {
            out.push(b'{')?;
            put_type(out, names, ty)?;
            out.push(b'}')?;
            put_term(out, names, body.get())
        }
    }
}
