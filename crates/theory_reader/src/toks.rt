ghost use Rattle.std.specs.Prelude.{◌≡◌, length, All, IfOk};
ghost use Rattle.text_kit.specs.Tokens.{IsWithin};
ghost use Rattle.theory_reader.specs.Toks.{word_tok, mark_tok, tok_of, toks_of};

use std::alloc::Global;
use text_kit::{Kind, NoMemory, Rows, Token};
use theory_syntax::{Quant, Tok, Word};
use theory_terms::word_at;

/// The word of these bytes: a word of the language, or a name.
fn word(bytes: &[u8], word: Word) -> Tok
    ensures { result ≡ word_tok bytes.now word }
{
    if bytes == b"type".as_slice() {
        Tok::Type
    } else if bytes == b"const".as_slice() {
        Tok::Const
    } else if bytes == b"fact".as_slice() {
        Tok::Fact
    } else if bytes == b"goal".as_slice() {
        Tok::Goal
    } else if bytes == b"assume".as_slice() {
        Tok::Assume
    } else if bytes == b"bool".as_slice() {
        Tok::Bool
    } else if bytes == b"true".as_slice() {
        Tok::Truth(true, word.start)
    } else if bytes == b"false".as_slice() {
        Tok::Truth(false, word.start)
    } else {
        Tok::Word(word)
    }
}

/// The mark of `len` bytes with this first byte.
fn mark(first: u8, len: u64, at: u64) -> Tok
    ensures { result ≡ mark_tok first len at }
{
    if first == b'(' {
        Tok::Open(at)
    } else if first == b')' {
        Tok::Close
    } else if first == b':' {
        Tok::Colon
    } else if first == b';' {
        Tok::Semi
    } else if first == b'.' {
        Tok::Dot
    } else if first == b'~' {
        Tok::Tilde(at)
    } else if first == b'&' {
        Tok::Amp
    } else if first == b'|' {
        Tok::Bar
    } else if first == b'!' {
        Tok::Quant(Quant::All, at)
    } else if first == b'?' {
        Tok::Quant(Quant::Ex, at)
    } else if first == b'\\' {
        Tok::Quant(Quant::Lambda, at)
    } else if first == b'@' {
        Tok::Quant(Quant::Eps, at)
    } else if first == b'-' {
        Tok::Arrow
    } else if len == 1 {
        Tok::Equal
    } else {
        Tok::Imp
    }
}

fn tok(text: &[u8], token: Token) -> Tok
    requires { IsWithin (length text.now) token }
    ensures { result ≡ tok_of text.now token }
{
    let span = Word {
        start: token.at,
        len: token.len,
    };
    match token.kind {
        Kind::Word => word(word_at(text, span), span),
        Kind::Mark => mark(text[token.at as usize], token.len, token.at),
    }
}

/// What the tokens of a text say to its grammar.
pub(crate) fn toks(alloc: Global, text: &[u8], cut: &[Token]) -> Result<Rows<Tok>, NoMemory>
    requires { All (IsWithin (length text.now)) cut.now }
    ensures { IfOk result (λ out. out ≡ toks_of text.now cut.now) }
{
    let mut out = Rows::begin(alloc);
    for token in cut {
        out.push(tok(text, *token))?;
    }
    Ok(out)
}
