ghost use Rattle.std.specs.Prelude.{◌≡◌, ◌+◌, ◌≤◌, ◌<◌, ◌^◌, length, false, IfSome};
ghost use Rattle.std.specs.List.{prefix_len};
ghost use Rattle.tptp_syntax.specs.Tokens.{is_blank, is_lower, is_upper, is_word_byte, is_plain, closing, comment_end, quoted, commented, slashed, dollar, spelled, signs, front_of, word_len, line_len};
ghost use Rattle.tptp_syntax.specs.inner.Fronts.{FrontFits};

use crate::{Chain, Pair, Quant, Tok};

/// What stands at the front of a text, with its number of bytes.
#[derive(Clone, Copy, Debug, Drop, PartialEq, Eq)]
pub enum Front {
    /// a blank or a comment
    Gap(usize),
    /// a token that is no name
    Sign(Tok, usize),
    /// a lower-case word
    Lower(usize),
    /// a name in quotes, with them
    Quoted(usize),
    /// an upper-case word
    Upper(usize),
    /// none of these
    Nothing,
}

fn is_blank_byte(byte: u8) -> bool
    ensures { result ≡ is_blank byte }
{
    byte == b' ' || byte == b'\t' || byte == b'\r' || byte == b'\n'
}

fn is_lower_byte(byte: u8) -> bool
    ensures { result ≡ is_lower byte }
{
    97 <= byte && byte <= 122
}

fn is_upper_byte(byte: u8) -> bool
    ensures { result ≡ is_upper byte }
{
    65 <= byte && byte <= 90
}

fn is_byte_of_word(byte: u8) -> bool
    ensures { result ≡ is_word_byte byte }
{
    is_lower_byte(byte) || is_upper_byte(byte) || (48 <= byte && byte <= 57) || byte == b'_'
}

/// Whether this byte may stand in quotes without a backslash.
fn is_plain_byte(byte: u8) -> bool
    ensures { result ≡ is_plain byte }
{
    32 <= byte && byte <= 126 && !(byte == b'\'' || byte == b'\\')
}

fn length_of_word(text: &[u8]) -> usize
    ensures value { result ≡ word_len text.now }
    ensures within { result ≤ length text.now }
{
    text.iter().take_while(|b| is_byte_of_word(**b)).count()
}

fn length_of_line(text: &[u8]) -> usize
    ensures value { result ≡ line_len text.now }
    ensures within { result ≤ length text.now }
{
    text.iter().take_while(|b| **b != b'\n').count()
}

/// The number of bytes before the quote that closes a name.
fn closing_place(text: &[u8]) -> Option<usize>
    ensures value { result ≡ closing false text.now }
    ensures within { IfSome result (λ n. n < length text.now) }
{
    let mut escaped = false;
    for (i, byte) in text.iter().enumerate() {
        if escaped {
            if *byte != b'\'' && *byte != b'\\' {
                return None;
            }
            escaped = false;
        } else if *byte == b'\'' {
            return Some(i);
        } else if *byte == b'\\' {
            escaped = true;
        } else if !is_plain_byte(*byte) {
            return None;
        }
    }
    None
}

/// The number of bytes up to the end of the first `*/`.
fn comment_len(text: &[u8]) -> Option<usize>
    ensures value { result ≡ comment_end false text.now }
    ensures within { IfSome result (λ n. n ≤ length text.now) }
{
    let mut starred = false;
    for (i, byte) in text.iter().enumerate() {
        if starred && *byte == b'/' {
            return Some(i + 1);
        }
        starred = *byte == b'*';
    }
    None
}

/// A name in quotes isn't empty.
fn quoted_front(behind: &[u8]) -> Front
    requires { length behind.now < 2 ^ 63 }
    ensures value { result ≡ quoted (closing false behind.now) }
    ensures within { FrontFits (length behind.now + 1) result }
{
    match closing_place(behind) {
        Some(len) => {
            if len == 0 {
                Front::Nothing
            } else {
                Front::Quoted(len + 2)
            }
        }
        None => Front::Nothing,
    }
}

fn slash_front(behind: &[u8]) -> Front
    requires { length behind.now < 2 ^ 63 }
    ensures value { result ≡ slashed behind.now }
    ensures within { FrontFits (length behind.now + 1) result }
{
    match behind {
        [b'*', rest @ ..] => match comment_len(rest) {
            Some(len) => Front::Gap(len + 2),
            None => Front::Nothing,
        },
        _ => Front::Nothing,
    }
}

/// `$true` and `$false` are the words with `$` that are read.
fn dollar_front(word: &[u8]) -> Front
    ensures value { result ≡ dollar word.now }
    ensures within { FrontFits (length word.now + 1) result }
{
    if word == b"true".as_slice() {
        Front::Sign(Tok::Truth(true), 5)
    } else if word == b"false".as_slice() {
        Front::Sign(Tok::Truth(false), 6)
    } else {
        Front::Nothing
    }
}

/// The sign at the front, the longest first.
fn sign_front(text: &[u8]) -> Front
    ensures value { result ≡ spelled signs text.now }
    ensures within { FrontFits (length text.now) result }
{
    if text.starts_with(b"<=>") {
        return Front::Sign(Tok::Pair(Pair::Iff), 3);
    }
    if text.starts_with(b"<~>") {
        return Front::Sign(Tok::Pair(Pair::Xor), 3);
    }
    if text.starts_with(b"<=") {
        return Front::Sign(Tok::Pair(Pair::Rev), 2);
    }
    if text.starts_with(b"=>") {
        return Front::Sign(Tok::Pair(Pair::Imp), 2);
    }
    if text.starts_with(b"~|") {
        return Front::Sign(Tok::Pair(Pair::Nor), 2);
    }
    if text.starts_with(b"~&") {
        return Front::Sign(Tok::Pair(Pair::Nand), 2);
    }
    if text.starts_with(b"!=") {
        return Front::Sign(Tok::Equal(false), 2);
    }
    if text.starts_with(b"=") {
        return Front::Sign(Tok::Equal(true), 1);
    }
    if text.starts_with(b"!") {
        return Front::Sign(Tok::Quant(Quant::Each), 1);
    }
    if text.starts_with(b"?") {
        return Front::Sign(Tok::Quant(Quant::One), 1);
    }
    if text.starts_with(b"~") {
        return Front::Sign(Tok::Tilde, 1);
    }
    if text.starts_with(b"&") {
        return Front::Sign(Tok::Chain(Chain::And), 1);
    }
    if text.starts_with(b"|") {
        return Front::Sign(Tok::Chain(Chain::Or), 1);
    }
    if text.starts_with(b"(") {
        return Front::Sign(Tok::Open(false), 1);
    }
    if text.starts_with(b"[") {
        return Front::Sign(Tok::Open(true), 1);
    }
    if text.starts_with(b")") {
        return Front::Sign(Tok::Close(false), 1);
    }
    if text.starts_with(b"]") {
        return Front::Sign(Tok::Close(true), 1);
    }
    if text.starts_with(b",") {
        return Front::Sign(Tok::Comma, 1);
    }
    if text.starts_with(b".") {
        return Front::Sign(Tok::Dot, 1);
    }
    if text.starts_with(b":") {
        return Front::Sign(Tok::Colon, 1);
    }
    Front::Nothing
}

/// What stands at the front of a text.
pub(crate) fn look(text: &[u8]) -> Front
    requires some { 0 < length text.now }
    requires fits { length text.now < 2 ^ 63 }
    ensures value { result ≡ front_of text.now }
    ensures within { FrontFits (length text.now) result }
{
    let first = text[0];
    let behind = &text[1..];
    if is_lower_byte(first) {
        Front::Lower(1 + length_of_word(behind))
    } else if is_upper_byte(first) {
        Front::Upper(1 + length_of_word(behind))
    } else if is_blank_byte(first) {
        Front::Gap(1)
    } else if first == b'%' {
        Front::Gap(1 + length_of_line(behind))
    } else if first == b'\'' {
        quoted_front(behind)
    } else if first == b'/' {
        slash_front(behind)
    } else if first == b'$' {
        dollar_front(&behind[..length_of_word(behind)])
    } else {
        sign_front(text)
    }
}
