ghost use Rattle.proof_syntax.specs.Tokens.{cut};
ghost use Rattle.proof_terms.specs.Terms.{IsTermFront};

use crate::word;

/// The first token of a term, and what stands behind it.
pub(crate) enum TermFront<'a> {
    Word(&'a [u8], &'a [u8]),
    Hash(&'a [u8]),
    Dollar(&'a [u8]),
    Dot(&'a [u8]),
    Round(&'a [u8]),
    Brace(&'a [u8]),
    Other,
}

/// How a term begins.
pub(crate) fn term_start(text: &[u8]) -> TermFront
    ensures { IsTermFront (cut text.now) result }
{
    match text {
        [b'#', rest @ ..] => TermFront::Hash(rest),
        [b'$', rest @ ..] => TermFront::Dollar(rest),
        [b'.', rest @ ..] => TermFront::Dot(rest),
        [b'(', rest @ ..] => TermFront::Round(rest),
        [b'{', rest @ ..] => TermFront::Brace(rest),
        _ => match word(text) {
            Some((name, rest)) => TermFront::Word(name, rest),
            None => TermFront::Other,
        },
    }
}
