ghost use Rattle.std.specs.Prelude.{◌≡◌, length, All};
ghost use Rattle.text_kit.specs.Tokens.{Cuts, IsWithin, IsRefusedAs};
ghost use Rattle.theory_reader.specs.Toks.{toks_of, byte_at};
ghost use Rattle.theory_reader.specs.inner.Stages.{GivesItems, Located};

use crate::toks::toks;
use crate::{TheoryFault, TheoryKind};
use std::alloc::Global;
use text_kit::{Rows, Token, TokenFault, tokens};
use theory_syntax::{Fault, Item, Tok, read};

/// The greatest level of a token.
pub(crate) const MAX_LEVEL: u32 = 256;

/// The first byte of the token at a place, or the text's length behind the last.
fn byte_of(text: &[u8], cut: &[Token], place: usize) -> u64
    ensures { result ≡ byte_at text.now cut.now place }
{
    match cut.get(place) {
        Some(token) => token.at,
        None => text.len() as u64,
    }
}

/// The fault of the grammar by the byte at which it stands.
fn located(text: &[u8], cut: &[Token], fault: Fault) -> TheoryFault
    ensures { Located text.now cut.now fault result }
{
    match fault {
        Fault::Syntax(place) => TheoryFault::At {
            at: byte_of(text, cut, place),
            kind: TheoryKind::Syntax,
        },
        Fault::TooDeep(place) => TheoryFault::At {
            at: byte_of(text, cut, place),
            kind: TheoryKind::TooDeep,
        },
        Fault::NoMemory => TheoryFault::NoMemory,
    }
}

/// The fault of a text that isn't cut into tokens.
fn token_fault(text: &[u8], fault: TokenFault) -> TheoryFault
    requires { IsRefusedAs text.now fault }
    ensures { GivesItems text.now (Err result) }
{
    match fault {
        TokenFault::BadByte { at } => TheoryFault::At {
            at,
            kind: TheoryKind::Token,
        },
        TokenFault::NoMemory => TheoryFault::NoMemory,
    }
}

fn parsed(
    alloc: Global,
    text: &[u8],
    cut: &[Token],
    toks: &[Tok],
) -> Result<Rows<Item>, TheoryFault>
    requires cut { Cuts 0 text.now cut.now }
    requires toks { toks.now ≡ toks_of text.now cut.now }
    ensures { GivesItems text.now result }
{
    match read(alloc, MAX_LEVEL, toks) {
        Ok(items) => Ok(items),
        Err(fault) => Err(located(text, cut, fault)),
    }
}

fn items_of(alloc: Global, text: &[u8], cut: &[Token]) -> Result<Rows<Item>, TheoryFault>
    requires cut { Cuts 0 text.now cut.now }
    requires within { All (IsWithin (length text.now)) cut.now }
    ensures { GivesItems text.now result }
{
    match toks(alloc, text, cut) {
        Ok(said) => parsed(alloc, text, cut, said.as_slice()),
        Err(_) => Err(TheoryFault::NoMemory),
    }
}

/// The declarations of a text as they are written.
pub(crate) fn items(alloc: Global, text: &[u8]) -> Result<Rows<Item>, TheoryFault>
    ensures { GivesItems text.now result }
{
    match tokens(alloc, text) {
        Ok(cut) => items_of(alloc, text, cut.as_slice()),
        Err(fault) => Err(token_fault(text, fault)),
    }
}
