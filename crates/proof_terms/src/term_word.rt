ghost use Rattle.std.specs.Prelude.{◌≡◌, None};
ghost use Rattle.proof_words.specs.Sharing.{Shares, IsOneOf};
ghost use Rattle.proof_syntax.specs.Machine.{plain_in, plains, typed_in, typeds};
ghost use Rattle.proof_syntax.specs.Forms.{typed_konst};
ghost use Rattle.proof_terms.specs.Terms.{Says, typed_of, term_words};

use hol_terms::{Konst, Ty};
use proof_words::shared_with;

/// A word that a type in brackets follows.
#[derive(Clone, Copy, Drop)]
pub(crate) enum TypedWord {
    Eq,
    All,
    Ex,
    Eps,
}

/// What a word says where a term is wanted.
pub(crate) enum TermWord {
    Plain(Konst),
    Typed(TypedWord),
    Other,
}

/// Reads a word of terms.
pub(crate) fn term_word(word: &[u8]) -> TermWord
    ensures { Says word.now result }
{
    if word == b"true".as_slice() {
        TermWord::Plain(Konst::True)
    } else if word == b"false".as_slice() {
        TermWord::Plain(Konst::False)
    } else if word == b"not".as_slice() {
        TermWord::Plain(Konst::Not)
    } else if word == b"and".as_slice() {
        TermWord::Plain(Konst::And)
    } else if word == b"or".as_slice() {
        TermWord::Plain(Konst::Or)
    } else if word == b"imp".as_slice() {
        TermWord::Plain(Konst::Imp)
    } else if word == b"eq".as_slice() {
        TermWord::Typed(TypedWord::Eq)
    } else if word == b"all".as_slice() {
        TermWord::Typed(TypedWord::All)
    } else if word == b"ex".as_slice() {
        TermWord::Typed(TypedWord::Ex)
    } else if word == b"eps".as_slice() {
        TermWord::Typed(TypedWord::Eps)
    } else {
        TermWord::Other
    }
}

/// The constant of a word and a type.
pub(crate) fn at_type(word: TypedWord, ty: Ty) -> Konst
    ensures { result ≡ typed_konst (typed_of word) ty }
{
    match word {
        TypedWord::Eq => Konst::Eq(ty),
        TypedWord::All => Konst::All(ty),
        TypedWord::Ex => Konst::Ex(ty),
        TypedWord::Eps => Konst::Eps(ty),
    }
}

/// How many bytes of an unknown word begin one of terms.
pub(crate) fn begins_word(word: &[u8]) -> usize
    requires plain { plain_in word.now plains ≡ None }
    requires typed { typed_in word.now typeds ≡ None }
    ensures { Shares (IsOneOf term_words) word.now result }
{
    let words = [
        b"true".as_slice(),
        b"false".as_slice(),
        b"not".as_slice(),
        b"and".as_slice(),
        b"or".as_slice(),
        b"imp".as_slice(),
        b"eq".as_slice(),
        b"all".as_slice(),
        b"ex".as_slice(),
        b"eps".as_slice(),
    ];
    shared_with(word, &words)
}
