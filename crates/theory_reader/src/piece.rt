ghost use Rattle.std.specs.Prelude.{◌≡◌, ◌+◌, ◌-◌, ◌<◌, ◌≤◌, ◌^◌, length, take, drop, map, All, IfOk, IsTrue};
ghost use Rattle.text_kit.specs.Tokens.{Cuts, IsWithin};
ghost use Rattle.theory_reader.specs.inner.Pieces.{moved, EndsInSemi, EndsInMark, IsClosed, StandsApart, ReadsPiece};

use crate::TheoryFault;
use crate::items::MAX_LEVEL;
use crate::toks::toks;
use std::alloc::Global;
use text_kit::{Kind, NoMemory, Rows, Token, TokenFault, tokens};
use theory_syntax::{Fault, Item, read};

/// Why a piece of a text isn't read by itself.
#[derive(Clone, Copy, Drop)]
pub(crate) enum Unread {
    /// It has a fault, or what ends it isn't its last token.
    Fault,
    /// Memory ran out.
    NoMemory,
}

impl From<NoMemory> for Unread {
    fn from(_cause: NoMemory) -> Unread {
        Unread::NoMemory
    }
}

impl From<TokenFault> for Unread {
    fn from(cause: TokenFault) -> Unread {
        match cause {
            TokenFault::BadByte { at: _ } => Unread::Fault,
            TokenFault::NoMemory => Unread::NoMemory,
        }
    }
}

impl From<TheoryFault> for Unread {
    fn from(cause: TheoryFault) -> Unread {
        match cause {
            TheoryFault::At { at: _, kind: _ } => Unread::Fault,
            TheoryFault::NoMemory => Unread::NoMemory,
        }
    }
}

impl From<Fault> for Unread {
    fn from(cause: Fault) -> Unread {
        match cause {
            Fault::Syntax(_) => Unread::Fault,
            Fault::TooDeep(_) => Unread::Fault,
            Fault::NoMemory => Unread::NoMemory,
        }
    }
}

/// The length of the statement at the front of a text: up to its first `;` outside comments, else all of it.
fn statement_len(text: &[u8]) -> usize
    requires { 0 < length text.now }
    ensures some { 0 < result }
    ensures within { result ≤ length text.now }
{
    let mut in_comment = false;
    for (place, byte) in text.iter().enumerate() {
        if in_comment {
            in_comment = *byte != b'\n';
        } else if *byte == b'#' {
            in_comment = true;
        } else if *byte == b';' {
            return place + 1;
        }
    }
    text.len()
}

/// The place behind the statement that begins at this place.
pub(crate) fn statement_end(text: &[u8], at: usize) -> usize
    requires { at < length text.now }
    ensures past { at < result }
    ensures within { result ≤ length text.now }
{
    at + statement_len(&text[at..])
}

/// Whether the last byte is `;`.
fn ends_in_semi(piece: &[u8]) -> bool
    ensures { IsTrue result → EndsInSemi piece.now }
{
    match piece.last() {
        Some(byte) => *byte == b';',
        None => false,
    }
}

/// Whether the last token is a mark that ends at this place.
fn ends_in_mark(cut: &[Token], end: u64) -> bool
    ensures { IsTrue result → EndsInMark end cut.now }
{
    match cut.last() {
        None => false,
        Some(last) => match last.kind {
            Kind::Word => false,
            Kind::Mark => ends_at(*last, end),
        },
    }
}

/// Whether the piece's last byte is its last token `;`.
fn is_closed(piece: &[u8], cut: &[Token]) -> bool
    ensures { IsTrue result → IsClosed piece.now cut.now }
{
    ends_in_semi(piece) && ends_in_mark(cut, piece.len() as u64)
}

/// Whether a token ends at this place.
fn ends_at(token: Token, end: u64) -> bool
    ensures { IsTrue result → token.at + token.len ≡ end }
{
    token.at <= end && end - token.at == token.len
}

/// Whether the tokens of a piece that ends at `to` are the text's, whatever stands behind it.
fn stands_apart(len: usize, to: usize, piece: &[u8], cut: &[Token]) -> bool
    ensures { IsTrue result → StandsApart len to piece.now cut.now }
{
    len <= to || is_closed(piece, cut)
}

/// The tokens of a piece that begins at `from`, by their places in the whole.
fn placed(alloc: Global, from: u64, cut: &[Token]) -> Result<Rows<Token>, NoMemory>
    requires { All (λ t. from + t.at < 2 ^ 64) cut.now }
    ensures { IfOk result (λ ts. ts ≡ map (moved from) cut.now) }
{
    let mut out = Rows::begin(alloc);
    for token in cut {
        out.push(Token {
            at: from + token.at,
            len: token.len,
            kind: token.kind,
        })?;
    }
    Ok(out)
}

/// The bytes from one place of a text to another.
fn part(text: &[u8], from: usize, to: usize) -> &[u8]
    requires from { from ≤ to }
    requires to { to ≤ length text.now }
    ensures { result.now ≡ take (to - from) (drop from text.now) }
{
    let behind = &text[from..];
    &behind[..to - from]
}

/// The declarations of the text from one place to another, as they stand whatever is behind them.
pub(crate) fn piece_items(
    alloc: Global,
    text: &[u8],
    from: usize,
    to: usize,
) -> Result<Rows<Item>, Unread>
    requires from { from ≤ to }
    requires to { to ≤ length text.now }
    ensures { IfOk result (ReadsPiece text.now from to) }
{
    let piece = part(text, from, to);
    let cut = tokens(alloc, piece)?;
    if !stands_apart(text.len(), to, piece, cut.as_slice()) {
        return Err(Unread::Fault);
    }
    let cut = placed(alloc, from as u64, cut.as_slice())?;
    let said = toks(alloc, text, cut.as_slice())?;
    Ok(read(alloc, MAX_LEVEL, said.as_slice())?)
}
