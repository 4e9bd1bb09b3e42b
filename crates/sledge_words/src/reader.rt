ghost use Rattle.std.specs.Prelude.{◌≡◌, ℕ, ◌≤◌, Some, List, length, map, slice_get, string_bytes, IfOk, IsTrue, MatchOption, MatchResult};
ghost use Rattle.std.specs.Option.{option_and_then};
ghost use Rattle.sledge_words.specs.Options.{command_of as command_named};
ghost use Rattle.sledge_words.specs.Pieces.{Before as BeforeEnd, parts_from};
ghost use Rattle.sledge_words.specs.Lines.{IsCount, IsLine, first_argument as argument_of, is_shaped as shaped};
ghost use Rattle.sledge_words.specs.inner.Split.{parts_of, Fits, NoValues, IsLineOf};
ghost use Rattle.sledge_words.specs.declared.line.Line.{Line as Asked};

use crate::command::{command_of, default_prover};
use crate::numbers::number_within;
use crate::pieces::{Parts, behind_first, parts_of_words};
use crate::settings::{Settings, is_shaped, settings_in, value_of};
use crate::{Command, Flag, Line, WordsFault};
use std::alloc::Global;
use text_kit::{Bytes, NoMemory};

/// The command that the first word names.
fn command_in(words: &[String]) -> Option<Command>
    ensures { result ≡ option_and_then command_named (slice_get (map string_bytes words.now) 0) }
{
    match words {
        [] => None,
        [first, ..] => command_of(first.as_str().as_bytes()),
    }
}

/// The first argument, as a word.
fn first_argument<'w>(words: &'w [String], places: &[u32]) -> &'w str
    ensures { result.now ≡ argument_of (map string_bytes words.now) places.now }
{
    match places {
        [] => "",
        [place, ..] => match words.get(*place as usize) {
            None => "",
            Some(word) => word.as_str(),
        },
    }
}

/// The number that `drill` and `gen` are asked for; none where the word is no such number.
fn count(command: Command, word: &str) -> Option<u32>
    ensures { MatchOption result ((n : ℕ) → IsCount command word.now n → ⊥) (IsCount command word.now) }
{
    match command {
        Command::Drill => number_within(word, 1, 20_000),
        Command::Gen => number_within(word, 1, 20_000),
        _ => Some(0),
    }
}

/// The line of a command with these parts and values.
fn line(
    alloc: Global,
    command: Command,
    parts: Parts,
    number: u32,
    values: Settings,
) -> Result<Line, NoMemory>
    ensures { IfOk result (IsLineOf command (parts_of parts.entry) number values) }
{
    let given = parts.given.as_slice();
    let prover = match value_of(given, Flag::Prover) {
        Some(word) => Bytes::from_slice(alloc, word.as_bytes())?,
        None => Bytes::from_slice(alloc, default_prover(command))?,
    };
    let proof = value_of(given, Flag::Proof).is_some();
    Ok(Line {
        command,
        places: parts.places,
        number,
        slices: values.slices,
        workers: values.workers,
        budget: values.budget,
        slice: values.slice,
        size: values.size,
        timeout: values.timeout,
        prover,
        proof,
    })
}

/// The number and the values of a command with these parts, where all fit.
fn values(words: &[String], command: Command, parts: &Parts) -> Option<(u32, Settings)>
    ensures { MatchOption result (NoValues (map string_bytes words.now) command (parts_of parts.now)) (λ v. Fits (map string_bytes words.now) command (parts_of parts.now) v.0 v.1) }
{
    if !is_shaped(command, parts) {
        return None;
    }
    let number = count(command, first_argument(words, parts.places.as_slice()))?;
    let values = settings_in(parts.given.as_slice())?;
    Some((number, values))
}

/// Reads the words of a command line.
///
/// The first word is the command; what options it takes and how many arguments stands in the grammar. A value is the next
/// word or follows `=`; `--` ends the options. `Usage` comes exactly where the words are no line.
pub fn read_words(alloc: Global, words: &[String]) -> Result<Line, WordsFault>
    ensures { MatchResult result (IsLine (map string_bytes words.now)) (λ e. e ≡ WordsFault.Usage → (l : Asked) → IsLine (map string_bytes words.now) l → ⊥) }
{
    match command_in(words) {
        None => Err(WordsFault::Usage),
        Some(command) => match parts_of_words(alloc, behind_first(words))? {
            None => Err(WordsFault::Usage),
            Some(parts) => match values(words, command, &parts) {
                None => Err(WordsFault::Usage),
                Some((number, values)) => Ok(line(alloc, command, parts, number, values)?),
            },
        },
    }
}
