ghost use Rattle.std.specs.Prelude.{◌≡◌, ◌≤◌, ◌∷◌, ℕ};
ghost use Rattle.proof_syntax.specs.Names.{Names as NamesOf};
ghost use Rattle.proof_syntax.specs.Tokens.{Word, cut, hash, dollar, dot};
ghost use Rattle.proof_syntax.specs.Forms.{typed_word};
ghost use Rattle.proof_syntax.specs.Grammar.{most};
ghost use Rattle.proof_terms.specs.Terms.{ReadsTerm, ReadsBehind, typed_of};

use crate::term_word::{TermWord, TypedWord, at_type, begins_word, term_word};
use crate::{Lookup, read_name, read_number, read_type, sign};
use hol_terms::{Konst, Term};
use proof_syntax::PartFault;
use std::alloc::Global;

/// An index, behind `#`.
pub(crate) fn read_index(digits: &[u8]) -> Result<(Term, &[u8]), PartFault>
    ensures { (names : NamesOf) → ReadsBehind names hash digits.now result }
{
    match read_number(digits) {
        Err(e) => Err(e),
        Ok((n, rest)) => Ok((Term::Bound(n), rest)),
    }
}

/// A free variable, behind `$`.
pub(crate) fn read_variable<'a>(
    alloc: Global,
    names: &Lookup,
    digits: &'a [u8],
) -> Result<(Term, &'a [u8]), PartFault>
    ensures { ReadsBehind names.now dollar digits.now result }
{
    match read_number(digits) {
        Err(e) => Err(e),
        Ok((n, end)) => match sign(b':', end) {
            None => Err(PartFault::Stops(end.len())),
            Some(inner) => match read_type(alloc, names, inner) {
                Err(e) => Err(e),
                Ok((ty, rest)) => Ok((Term::Free(n, ty), rest)),
            },
        },
    }
}

/// A constant of the theory, behind `.`.
pub(crate) fn read_constant<'a>(
    names: &Lookup,
    name: &'a [u8],
) -> Result<(Term, &'a [u8]), PartFault>
    ensures { ReadsBehind names.now dot name.now result }
{
    match read_name(names.consts(), name) {
        Err(e) => Err(e),
        Ok((n, rest)) => Ok((Term::Con(Konst::Named(n)), rest)),
    }
}

/// The type of a constant in brackets, behind its word.
fn read_typed<'a>(
    alloc: Global,
    names: &Lookup,
    word: TypedWord,
    behind: &'a [u8],
) -> Result<(Term, &'a [u8]), PartFault>
    ensures { ReadsBehind names.now (Word (typed_word (typed_of word))) behind.now result }
{
    match sign(b'[', behind) {
        None => Err(PartFault::Stops(behind.len())),
        Some(inner) => match read_type(alloc, names, inner) {
            Err(e) => Err(e),
            Ok((ty, end)) => match sign(b']', end) {
                None => Err(PartFault::Stops(end.len())),
                Some(rest) => Ok((Term::Con(at_type(word, ty)), rest)),
            },
        },
    }
}

/// A logical constant, by its word at the front of a text.
pub(crate) fn read_word<'a>(
    alloc: Global,
    names: &Lookup,
    text: &[u8],
    word: &[u8],
    behind: &'a [u8],
) -> Result<(Term, &'a [u8]), PartFault>
    requires { cut text.now ≡ Word word.now ∷ cut behind.now }
    ensures { (l : ℕ) → l ≤ most → ReadsTerm names.now l text.now result }
{
    match term_word(word) {
        TermWord::Plain(konst) => Ok((Term::Con(konst), behind)),
        TermWord::Typed(typed) => read_typed(alloc, names, typed, behind),
        TermWord::Other => Err(PartFault::Stops(text.len() - begins_word(word))),
    }
}
