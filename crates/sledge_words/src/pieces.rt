ghost use Rattle.std.specs.Option.{option_map};
ghost use Rattle.std.specs.Prelude.{◌≡◌, drop, length, map, string_bytes, is_some, IfOk};
ghost use Rattle.sledge_words.specs.Pieces.{is_plain as is_plain_word, is_argument as is_argument_word, said as said_as, opened as opened_as, joined as joined_as, parts_from, Before as BeforeEnd, ended};
ghost use Rattle.sledge_words.specs.inner.Split.{said_of, standing_of, parts_of, Reads};

use crate::Flag;
use crate::option::{flag_of, has_value};
use std::alloc::Global;
use text_kit::{NoMemory, Rows};

/// An option with its value, lent from the words; `--proof` has the empty one.
#[derive(Clone, Copy, Debug, Drop)]
pub(crate) struct Given<'w> {
    pub(crate) flag: Flag,
    pub(crate) value: &'w str,
}

/// The places of the arguments, and the options.
#[derive(Debug, Drop)]
pub(crate) struct Parts<'w> {
    pub(crate) places: Rows<u32>,
    pub(crate) given: Rows<Given<'w>>,
}

/// What a word is before `--`.
#[derive(Clone, Copy, Debug, Drop)]
pub(crate) enum Said<'w> {
    Argument,
    Ends,
    Opens(Flag),
    Gives(Flag, &'w str),
    Wrong,
}

/// Where in a line a word stands.
#[derive(Clone, Copy, Debug, Drop)]
pub(crate) enum Standing {
    Before,
    Due(Flag),
    Behind,
}

fn is_plain(word: &str) -> bool
    ensures { result ≡ is_plain_word word.now }
{
    match word.as_bytes() {
        [] => false,
        [first, ..] => *first != b'-',
    }
}

fn is_argument(word: &str) -> bool
    ensures { result ≡ is_argument_word word.now }
{
    match word.as_bytes() {
        [] => false,
        [..] => word != "-",
    }
}

/// An option without `=`.
fn opened<'w>(flag: Option<Flag>) -> Said<'w>
    ensures { said_of result ≡ opened_as flag }
{
    match flag {
        None => Said::Wrong,
        Some(f) => if has_value(f) {
            Said::Opens(f)
        } else {
            Said::Gives(f, "")
        }
    }
}

/// An option with what follows `=`.
fn joined(flag: Option<Flag>, value: &str) -> Said<'_>
    ensures { said_of result ≡ joined_as flag value.now }
{
    match flag {
        None => Said::Wrong,
        Some(f) => {
            if has_value(f) && is_plain(value) {
                Said::Gives(f, value)
            } else {
                Said::Wrong
            }
        }
    }
}

/// What a word is before `--`.
fn word_said(word: &str) -> Said<'_>
    ensures { said_of result ≡ said_as word.now }
{
    if is_plain(word) {
        Said::Argument
    } else if word == "--" {
        Said::Ends
    } else {
        match word.split_once('=') {
            Some((name, value)) => joined(flag_of(name.as_bytes()), value),
            None => opened(flag_of(word.as_bytes())),
        }
    }
}

/// Reads a word before `--`.
fn read_before<'w>(
    parts: &mut Parts<'w>,
    place: u32,
    word: &'w str,
) -> Result<Option<Standing>, NoMemory>
    ensures { IfOk result (Reads (parts_of parts.old) (parts_of parts.new) BeforeEnd place word.now) }
{
    match word_said(word) {
        Said::Argument => {
            parts.places.push(place)?;
            Ok(Some(Standing::Before))
        }
        Said::Ends => Ok(Some(Standing::Behind)),
        Said::Opens(flag) => Ok(Some(Standing::Due(flag))),
        Said::Gives(flag, value) => {
            parts.given.push(Given { flag, value })?;
            Ok(Some(Standing::Before))
        }
        Said::Wrong => Ok(None),
    }
}

/// Reads a word; none where it can't stand there.
fn read_word<'w>(
    parts: &mut Parts<'w>,
    standing: Standing,
    place: u32,
    word: &'w str,
) -> Result<Option<Standing>, NoMemory>
    ensures { IfOk result (Reads (parts_of parts.old) (parts_of parts.new) (standing_of standing) place word.now) }
{
    match standing {
        Standing::Before => read_before(parts, place, word),
        Standing::Due(flag) => {
            if is_plain(word) {
                parts.given.push(Given { flag, value: word })?;
                Ok(Some(Standing::Before))
            } else {
                Ok(None)
            }
        }
        Standing::Behind => {
            if is_argument(word) {
                parts.places.push(place)?;
                Ok(Some(Standing::Behind))
            } else {
                Ok(None)
            }
        }
    }
}

/// Whether words may end there.
fn may_end(standing: Standing) -> bool
    ensures { result ≡ is_some (ended (standing_of standing)) }
{
    match standing {
        Standing::Due(_) => false,
        _ => true,
    }
}

/// The words behind the first.
pub(crate) fn behind_first(words: &[String]) -> &[String]
    ensures { map string_bytes result.now ≡ drop 1 (map string_bytes words.now) }
{
    match words {
        [] => words,
        [_, rest @ ..] => rest,
    }
}

/// The parts of the words behind the command; none where they have none.
pub(crate) fn parts_of_words(alloc: Global, words: &[String]) -> Result<Option<Parts<'_>>, NoMemory>
    ensures { IfOk result (λ o. option_map parts_of o ≡ parts_from (map string_bytes words.now) 1 BeforeEnd) }
{
    let mut parts = Parts {
        places: Rows::begin(alloc),
        given: Rows::begin(alloc),
    };
    let mut standing = Standing::Before;
    let mut place: u32 = 1;
    for word in words {
        if place == u32::MAX {
            return Err(NoMemory);
        }
        match read_word(&mut parts, standing, place, word.as_str())? {
            None => return Ok(None),
            Some(next) => standing = next,
        }
        place += 1;
    }
    if may_end(standing) {
        Ok(Some(parts))
    } else {
        Ok(None)
    }
}
