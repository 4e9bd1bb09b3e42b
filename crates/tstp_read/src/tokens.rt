ghost use Rattle.std.specs.Prelude.{◌≡◌, ◌+◌, ◌≤◌, ◌<◌, ◌^◌, length, drop, All, IfOk, IfErr, IfSome, false};
ghost use Rattle.std.specs.List.{prefix_len};
ghost use Rattle.tstp_read.specs.Tokens.{is_blank, is_word_byte, is_quote, is_printable, closing, comment_end, quoted, slashed, front_of, cut, Into, unescaped, IsRefusedAs, IsPlaced, IsWithin, FrontFits};

use crate::lines::{is_sign_byte, line_len, rest_at};
use std::alloc::Global;
use text_kit::{Bytes, NoMemory, Rows};

/// What a token is.
#[derive(Clone, Copy, Debug, Drop, PartialEq, Eq)]
pub enum Kind {
    /// Letters, digits, `_` and `$`.
    Word,
    /// What stands between quotes.
    Quoted,
    /// Any other printable byte.
    Mark,
}

/// A token, by the place of its first byte and its number of bytes, with its quotes.
#[derive(Clone, Copy, Debug, Drop, PartialEq, Eq)]
pub struct Token {
    pub at: usize,
    pub len: usize,
    pub kind: Kind,
}

/// Why a text has no tokens.
#[derive(Clone, Copy, Debug, Drop, PartialEq, Eq)]
pub enum CutFault {
    /// The byte at this place begins no token.
    BadByte { at: usize },
    /// Memory ran out.
    NoMemory,
}

/// What stands at the front of a text, with its number of bytes.
enum Front {
    /// A blank or a comment.
    Gap(usize),
    /// A token.
    Token(Kind, usize),
    /// Neither.
    Nothing,
}

fn is_blank_byte(byte: u8) -> bool
    ensures { result ≡ is_blank byte }
{
    b" \t\r\n".contains(&byte)
}

fn is_byte_of_word(byte: u8) -> bool
    ensures { result ≡ is_word_byte byte }
{
    byte.is_ascii_alphanumeric() || byte == b'_' || byte == b'$'
}

fn is_quote_byte(byte: u8) -> bool
    ensures { result ≡ is_quote byte }
{
    byte == b'"' || byte == b'\''
}

fn is_printable_byte(byte: u8) -> bool
    ensures { result ≡ is_printable byte }
{
    33 <= byte && byte <= 126
}

fn word_len(text: &[u8]) -> usize
    ensures value { result ≡ prefix_len is_word_byte text.now }
    ensures within { result ≤ length text.now }
{
    text.iter().take_while(|b| is_byte_of_word(**b)).count()
}

/// The number of bytes before the quote that closes a name on this line.
fn closing_place(quote: u8, text: &[u8]) -> Option<usize>
    ensures value { result ≡ closing quote false text.now }
    ensures within { IfSome result (λ n. n < length text.now) }
{
    let mut escaped = false;
    for (i, byte) in text.iter().enumerate() {
        if *byte == b'\n' {
            return None;
        }
        if escaped {
            escaped = false;
        } else if *byte == quote {
            return Some(i);
        } else {
            escaped = *byte == b'\\';
        }
    }
    None
}

/// The number of bytes up to the end of the first `*/`.
fn comment_len(text: &[u8]) -> Option<usize>
    ensures value { result ≡ comment_end false text.now }
    ensures within { IfSome result (λ n. n ≤ length text.now) }
{
    let mut starred = false;
    for (i, byte) in text.iter().enumerate() {
        if starred && *byte == b'/' {
            return Some(i + 1);
        }
        starred = *byte == b'*';
    }
    None
}

fn quoted_front(quote: u8, behind: &[u8]) -> Front
    requires { length behind.now < 2 ^ 63 }
    ensures value { result ≡ quoted (closing quote false behind.now) }
    ensures within { FrontFits (length behind.now + 1) result }
{
    match closing_place(quote, behind) {
        Some(len) => Front::Token(Kind::Quoted, len + 2),
        None => Front::Nothing,
    }
}

fn slash_front(behind: &[u8]) -> Front
    requires { length behind.now < 2 ^ 63 }
    ensures value { result ≡ slashed behind.now }
    ensures within { FrontFits (length behind.now + 1) result }
{
    match behind {
        [b'*', rest @ ..] => match comment_len(rest) {
            Some(len) => Front::Gap(len + 2),
            None => Front::Nothing,
        },
        _ => Front::Token(Kind::Mark, 1),
    }
}

fn look(text: &[u8]) -> Front
    requires some { 0 < length text.now }
    requires fits { length text.now < 2 ^ 63 }
    ensures value { result ≡ front_of text.now }
    ensures within { FrontFits (length text.now) result }
{
    let first = text[0];
    let behind = &text[1..];
    if is_byte_of_word(first) {
        Front::Token(Kind::Word, 1 + word_len(behind))
    } else if is_blank_byte(first) {
        Front::Gap(1)
    } else if is_sign_byte(first) {
        Front::Gap(1 + line_len(behind))
    } else if is_quote_byte(first) {
        quoted_front(first, behind)
    } else if first == b'/' {
        slash_front(behind)
    } else if is_printable_byte(first) {
        Front::Token(Kind::Mark, 1)
    } else {
        Front::Nothing
    }
}

/// Cuts a text into tokens.
pub fn tokens(alloc: Global, text: &[u8]) -> Result<Rows<Token>, CutFault>
    ensures cut { IfOk result (λ ts. cut 0 0 text.now ≡ Into ts) }
    ensures refused { IfErr result (IsRefusedAs text.now) }
    ensures placed { IfErr result (IsPlaced (length text.now)) }
    ensures within { IfOk result (All (IsWithin (length text.now))) }
{
    let mut found = Rows::begin(alloc);
    let mut at = 0;
    'pieces: while at < text.len() {
        match look(rest_at(text, at)) {
            Front::Gap(len) => at += len,
            Front::Token(kind, len) => {
                let token = Token { at, len, kind };
                match found.push(token) {
                    Ok(()) => at += len,
                    Err(NoMemory) => return Err(CutFault::NoMemory),
                }
            }
            Front::Nothing => return Err(CutFault::BadByte { at }),
        }
    }
    Ok(found)
}

/// A name's bytes without the backslashes that take the next byte as it is.
pub fn without_escapes(alloc: Global, bytes: &[u8]) -> Result<Bytes, NoMemory>
    ensures { IfOk result (λ out. out ≡ unescaped false bytes.now) }
{
    let mut out = Bytes::begin(alloc);
    let mut escaped = false;
    for byte in bytes {
        if !escaped && *byte == b'\\' {
            escaped = true;
        } else {
            out.push(*byte)?;
            escaped = false;
        }
    }
    Ok(out)
}
