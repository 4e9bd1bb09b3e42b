ghost use Rattle.std.specs.Prelude.{◌≡◌, ℕ, Option, map, MatchOption};
ghost use Rattle.std.specs.Option.{option_map};
ghost use Rattle.std.specs.List.{list_all, list_any};
ghost use Rattle.sledge_words.specs.Lines.{same_flag as same_flag_of, value_of as value_in, once as given_once, has_arguments as has_so_many, is_shaped as shaped, IsSetting, IsLimit};
ghost use Rattle.sledge_words.specs.Options.{takes as takes_of};
ghost use Rattle.sledge_words.specs.inner.Split.{given_of, parts_of, AreSettings};
ghost use Rattle.sledge_words.specs.declared.settings.Settings.{Settings as Values};

use crate::command::{arguments, has_facts, takes};
use crate::numbers::number_within;
use crate::option::same_flag;
use crate::pieces::{Given, Parts};
use crate::{Command, Flag};

/// The options whose values are numbers.
#[derive(Clone, Copy, Debug, Drop)]
pub(crate) struct Settings {
    pub(crate) slices: u32,
    pub(crate) workers: u32,
    pub(crate) budget: u32,
    pub(crate) slice: u32,
    pub(crate) size: u32,
    pub(crate) timeout: Option<u64>,
}

/// The value that is given for an option.
pub(crate) fn value_of<'w>(given: &[Given<'w>], flag: Flag) -> Option<&'w str>
    ensures { option_map (λ v. v.now) result ≡ value_in flag (map given_of given.now) }
{
    for g in given {
        if same_flag(flag, g.flag) {
            return Some(g.value);
        }
    }
    None
}

/// Whether an option is among these.
fn is_given(given: &[Given], flag: Flag) -> bool
    ensures { result ≡ list_any (λ h. same_flag_of flag h.flag) (map given_of given.now) }
{
    for g in given {
        if same_flag(flag, g.flag) {
            return true;
        }
    }
    false
}

/// Whether no option is given twice.
fn once(given: &[Given]) -> bool
    ensures { result ≡ given_once (map given_of given.now) }
{
    for i in 0..given.len() {
        if is_given(&given[i + 1..], given[i].flag) {
            return false;
        }
    }
    true
}

fn are_taken(command: Command, given: &[Given]) -> bool
    ensures { result ≡ list_all (λ g. takes_of command g.flag) (map given_of given.now) }
{
    for g in given {
        if !takes(command, g.flag) {
            return false;
        }
    }
    true
}

fn has_arguments(command: Command, count: usize) -> bool
    ensures { result ≡ has_so_many command count }
{
    if has_facts(command) {
        arguments(command) <= count
    } else {
        count == arguments(command)
    }
}

/// Whether the command takes so many arguments and these options.
pub(crate) fn is_shaped(command: Command, parts: &Parts) -> bool
    ensures { result ≡ shaped command (parts_of parts.now) }
{
    has_arguments(command, parts.places.len())
        && are_taken(command, parts.given.as_slice())
        && once(parts.given.as_slice())
}

/// The number that an option sets; none where its value is no such number.
fn setting(given: &[Given], flag: Flag, low: u32, high: u32, default: u32) -> Option<u32>
    ensures { MatchOption result ((n : ℕ) → IsSetting flag low high default (map given_of given.now) n → ⊥) (IsSetting flag low high default (map given_of given.now)) }
{
    match value_of(given, flag) {
        None => Some(default),
        Some(word) => number_within(word, low, high),
    }
}

/// The limit of time, where one is given; none where its value is no such number.
fn limit(given: &[Given]) -> Option<Option<u64>>
    ensures { MatchOption result ((o : Option ℕ) → IsLimit (map given_of given.now) o → ⊥) (IsLimit (map given_of given.now)) }
{
    match value_of(given, Flag::Timeout) {
        None => Some(None),
        Some(word) => match number_within(word, 1, 600_000) {
            None => None,
            Some(n) => Some(Some(u64::from(n))),
        },
    }
}

/// The values of the options; none where one isn't within its bounds.
pub(crate) fn settings_in(given: &[Given]) -> Option<Settings>
    ensures { MatchOption result ((s : Values) → AreSettings (map given_of given.now) s → ⊥) (AreSettings (map given_of given.now)) }
{
    let slices = setting(given, Flag::Slices, 1, 64, 4)?;
    let workers = setting(given, Flag::Workers, 1, 16, 4)?;
    let budget = setting(given, Flag::Budget, 1, 10_000, 2_000)?;
    let slice = setting(given, Flag::Slice, 0, 63, 0)?;
    let size = setting(given, Flag::Size, 1, 4, 2)?;
    let timeout = limit(given)?;
    Some(Settings {
        slices,
        workers,
        budget,
        slice,
        size,
        timeout,
    })
}
