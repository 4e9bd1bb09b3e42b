ghost use Rattle.std.specs.Prelude.{◌≡◌, ◌++◌, ◌==◌, [], map, OnOk, if◌then◌else◌};
ghost use Rattle.tstp_print.specs.Terms.{variable_text, arguments_text, term_text, atom_text};

use crate::vocabulary::{Vocabulary, put_symbol};
use fo_terms::{Atom, FoTerm};
use text_kit::{Bytes, NoMemory, put_decimal};

/// Appends a variable.
pub fn put_variable(out: &mut Bytes, x: u64) -> Result<(), NoMemory>
    ensures { OnOk result (out.new ≡ out.old ++ variable_text x) }
{
    out.push(b'X')?;
    put_decimal(out, x)
}

/// Appends the sign before an item that isn't the first.
pub fn put_between(out: &mut Bytes, sign: &[u8], place: usize) -> Result<(), NoMemory>
    ensures { OnOk result (out.new ≡ out.old ++ (if place == 0 then [] else sign.now)) }
{
    if place == 0 { Ok(()) } else { out.append(sign) }
}

/// Appends a term.
#[cycle(writing)]
pub fn put_term(out: &mut Bytes, words: &Vocabulary, t: &FoTerm) -> Result<(), NoMemory>
    ensures { OnOk result (out.new ≡ out.old ++ term_text words.now.names.now t.now) }
{
    match t {
        FoTerm::Var(x) => put_variable(out, *x),
        FoTerm::Fun(f, args) => {
            put_symbol(out, words, *f)?;
            put_arguments(out, words, args.as_slice())
        }
    }
}

#[cycle(writing)]
fn put_arguments(out: &mut Bytes, words: &Vocabulary, args: &[FoTerm]) -> Result<(), NoMemory>
    ensures { OnOk result (out.new ≡ out.old ++ arguments_text (map (term_text words.now.names.now) args.now)) }
{
    if args.is_empty() {
        return Ok(());
    }
    out.push(b'(')?;
    for i in 0..args.len() {
        put_between(out, b",", i)?;
        put_term(out, words, &args[i])?;
    }
    out.push(b')')
}

/// Appends an atom.
pub fn put_atom(out: &mut Bytes, words: &Vocabulary, a: &Atom) -> Result<(), NoMemory>
    ensures { OnOk result (out.new ≡ out.old ++ atom_text words.now.names.now a.now) }
{
    match a {
        Atom::Holds(t) => put_term(out, words, t),
        Atom::Eq(s, t) => {
            out.push(b'(')?;
            put_term(out, words, s)?;
            out.append(b" = ")?;
            put_term(out, words, t)?;
            out.push(b')')
        }
    }
}
