ghost use Rattle.std.specs.Prelude.{◌≡◌, ◌++◌, OnOk};
ghost use Rattle.tstp_print.specs.Terms.{literal_text, clause_text};

use crate::term::{put_atom, put_between};
use crate::vocabulary::Vocabulary;
use fo_terms::Literal;
use text_kit::{Bytes, NoMemory};

fn put_literal(out: &mut Bytes, words: &Vocabulary, l: &Literal) -> Result<(), NoMemory>
    ensures { OnOk result (out.new ≡ out.old ++ literal_text words.now.names.now l.now) }
{
    if l.positive {
        return put_atom(out, words, &l.atom);
    }
    out.append(b"(~ ")?;
    put_atom(out, words, &l.atom)?;
    out.push(b')')
}

/// Appends the clause of these literals.
pub fn put_clause(out: &mut Bytes, words: &Vocabulary, literals: &[Literal]) -> Result<(), NoMemory>
    ensures { OnOk result (out.new ≡ out.old ++ clause_text words.now.names.now literals.now) }
{
    if literals.is_empty() {
        return out.append(b"$false");
    }
    out.push(b'(')?;
    for i in 0..literals.len() {
        put_between(out, b" | ", i)?;
        put_literal(out, words, &literals[i])?;
    }
    out.push(b')')
}
