ghost use Rattle.std.specs.Prelude.{◌≡◌, ◌++◌, OnOk};
ghost use Rattle.tstp_print.specs.Formulas.{quantifier_text, formula_text};

use crate::term::{put_atom, put_variable};
use crate::vocabulary::Vocabulary;
use fo_terms::FoFormula;
use text_kit::{Bytes, NoMemory};

/// Appends a quantifier with its variable, and what stands before its body.
fn put_quantifier(out: &mut Bytes, sign: u8, x: u64) -> Result<(), NoMemory>
    ensures { OnOk result (out.new ≡ out.old ++ quantifier_text sign x) }
{
    out.push(b'(')?;
    out.push(sign)?;
    out.append(b" [")?;
    put_variable(out, x)?;
    out.append(b"] : ")
}

/// Appends a formula.
pub fn put_formula(out: &mut Bytes, words: &Vocabulary, f: &FoFormula) -> Result<(), NoMemory>
    ensures { OnOk result (out.new ≡ out.old ++ formula_text words.now.names.now f.now) }
{
    match f {
        FoFormula::True => out.append(b"$true"),
        FoFormula::False => out.append(b"$false"),
        FoFormula::Atom(a) => put_atom(out, words, a),
        FoFormula::Not(a) => {
            out.append(b"(~ ")?;
            put_formula(out, words, a.get())?;
            out.push(b')')
        }
        FoFormula::And(a, b) => {
            out.push(b'(')?;
            put_formula(out, words, a.get())?;
            out.append(b" & ")?;
            put_formula(out, words, b.get())?;
            out.push(b')')
        }
        FoFormula::Or(a, b) => {
            out.push(b'(')?;
            put_formula(out, words, a.get())?;
            out.append(b" | ")?;
            put_formula(out, words, b.get())?;
            out.push(b')')
        }
        FoFormula::Imp(a, b) => {
            out.push(b'(')?;
            put_formula(out, words, a.get())?;
            out.append(b" => ")?;
            put_formula(out, words, b.get())?;
            out.push(b')')
        }
        FoFormula::Iff(a, b) => {
            out.push(b'(')?;
            put_formula(out, words, a.get())?;
            out.append(b" <=> ")?;
            put_formula(out, words, b.get())?;
            out.push(b')')
        }
        FoFormula::Each(x, a) => {
            put_quantifier(out, b'!', *x)?;
            put_formula(out, words, a.get())?;
            out.push(b')')
        }
        FoFormula::One(x, a) => {
            put_quantifier(out, b'?', *x)?;
            put_formula(out, words, a.get())?;
            out.push(b')')
        }
    }
}
