ghost use Rattle.std.specs.Prelude.{◌≡◌, ℕ, ◌≤◌, ◌<◌, List, length, drop, All, IfOk, IfErr};
ghost use Rattle.std.specs.List.{prefix_len};
ghost use Rattle.text_kit.specs.Tokens.{Cuts, Cut, IsCut, HasAnswer, IsRefusedAs, IsWithin, is_blank, is_short_mark, is_word_byte, is_inside_line};
ghost use Rattle.text_kit.specs.inner.Front.{front_of, equal_mark, dash_mark, word_of};

use crate::{NoMemory, Rows};
use std::alloc::Global;

/// What a token is.
#[derive(Clone, Copy, Debug, Drop, PartialEq, Eq)]
pub enum Kind {
    /// A letter, and then letters, digits and `_`, at most 64 bytes.
    Word,
    /// One of `( ) : ; . = ~ & | ! ? \ @ -> ==>`.
    Mark,
}

/// A token, by the place of its first byte and its number of bytes.
#[derive(Clone, Copy, Debug, Drop, PartialEq, Eq)]
pub struct Token {
    pub at: u64,
    pub len: u64,
    pub kind: Kind,
}

/// Why a text has no tokens.
#[derive(Clone, Copy, Debug, Drop, PartialEq, Eq)]
pub enum TokenFault {
    /// The byte at this place begins no token.
    BadByte { at: u64 },
    /// Memory ran out.
    NoMemory,
}

/// The greatest number of bytes of a word.
const MAX_WORD: usize = 64;

/// What stands at the front of a text, with its number of bytes.
enum Front {
    /// A blank or a comment.
    Gap(usize),
    /// A token.
    Token(Kind, usize),
    /// Neither.
    Nothing,
}

fn is_blank_byte(byte: u8) -> bool
    ensures { result ≡ is_blank byte }
{
    b" \t\r\n".contains(&byte)
}

fn is_short_mark_byte(byte: u8) -> bool
    ensures { result ≡ is_short_mark byte }
{
    b"():;.=~&|!?\\@".contains(&byte)
}

fn is_byte_of_word(byte: u8) -> bool
    ensures { result ≡ is_word_byte byte }
{
    byte.is_ascii_alphanumeric() || byte == b'_'
}

fn line_len(text: &[u8]) -> usize
    ensures value { result ≡ prefix_len is_inside_line text.now }
    ensures within { result ≤ length text.now }
{
    text.iter().take_while(|b| **b != b'\n').count()
}

fn word_len(text: &[u8]) -> usize
    ensures value { result ≡ prefix_len is_word_byte text.now }
    ensures within { result ≤ length text.now }
{
    text.iter().take_while(|b| is_byte_of_word(**b)).count()
}

fn word_front(len: usize) -> Front
    ensures { result ≡ word_of len }
{
    if len <= MAX_WORD {
        Front::Token(Kind::Word, len)
    } else {
        Front::Nothing
    }
}

fn equal_front(behind: &[u8]) -> Front
    ensures { result ≡ equal_mark behind.now }
{
    if behind.len() >= 2 && behind[0] == b'=' && behind[1] == b'>' {
        Front::Token(Kind::Mark, 3)
    } else {
        Front::Token(Kind::Mark, 1)
    }
}

fn dash_front(behind: &[u8]) -> Front
    ensures { result ≡ dash_mark behind.now }
{
    if behind.len() >= 1 && behind[0] == b'>' {
        Front::Token(Kind::Mark, 2)
    } else {
        Front::Nothing
    }
}

fn look(text: &[u8]) -> Front
    requires { 0 < length text.now }
    ensures { result ≡ front_of text.now }
{
    let first = text[0];
    let behind = &text[1..];
    if first.is_ascii_alphabetic() {
        word_front(1 + word_len(behind))
    } else if is_blank_byte(first) {
        Front::Gap(1)
    } else if first == b'#' {
        Front::Gap(1 + line_len(behind))
    } else if first == b'=' {
        equal_front(behind)
    } else if first == b'-' {
        dash_front(behind)
    } else if is_short_mark_byte(first) {
        Front::Token(Kind::Mark, 1)
    } else {
        Front::Nothing
    }
}

fn rest_at(text: &[u8], at: usize) -> &[u8]
    requires { at ≤ length text.now }
    ensures { result.now ≡ drop at text.now }
{
    &text[at..]
}

/// Cuts a text into tokens.
pub fn tokens(alloc: Global, text: &[u8]) -> Result<Rows<Token>, TokenFault>
    // What is cut is the whole text, and a bad byte is the first one.
    ensures cut { IfOk result (λ ts. Cuts 0 text.now ts) }
    ensures refused { IfErr result (IsRefusedAs text.now) }
    ensures within { IfOk result (All (IsWithin (length text.now))) }
{
    let mut found = Rows::begin(alloc);
    let mut at = 0;
    'pieces: while at < text.len() {
        match look(rest_at(text, at)) {
            Front::Gap(len) => at += len,
            Front::Token(kind, len) => {
                let token = Token {
                    at: at as u64,
                    len: len as u64,
                    kind,
                };
                match found.push(token) {
                    Ok(()) => at += len,
                    Err(NoMemory) => return Err(TokenFault::NoMemory),
                }
            }
            Front::Nothing => return Err(TokenFault::BadByte { at: at as u64 }),
        }
    }
    Ok(found)
}

/// Each text is cut in one way, or has one first byte that begins no token, and never both.
pub fn one_cut()
    ensures some { (n : ℕ) (text : List ℕ) → HasAnswer n text }
    ensures one { (n : ℕ) (text : List ℕ) (a b : Cut) → IsCut n text a → IsCut n text b → a ≡ b }
{}
