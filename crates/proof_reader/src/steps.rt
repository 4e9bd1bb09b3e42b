ghost use Rattle.std.specs.Prelude.{◌≡◌, [], ◌∷◌, MatchResult};
ghost use Rattle.proof_syntax.specs.Tokens.{cut, line_end};
ghost use Rattle.proof_words.specs.Sharing.{IsOneOf};
ghost use Rattle.proof_reader.specs.inner.Words.{FailsWord, FailsLast, openings};
ghost use Rattle.proof_reader.specs.inner.Parts.{IsOpening, GotStep, FailsStep, GotSteps, FailsSteps};

use crate::made::made;
use crate::words::{other_word, read_rule};
use itoa::Buffer;
use kernel_rules::Step;
use proof_syntax::PartFault;
use proof_terms::{Lookup, sign, word};
use std::alloc::Global;
use text_kit::Rows;

/// How the line of a step begins, with what stands behind.
#[derive(Clone, Copy, Drop)]
pub enum Opening<'a> {
    /// With the number of the step.
    Numbered(&'a [u8]),
    /// With `end`.
    Last(&'a [u8]),
}

/// How the line begins where the step of this number is due.
fn read_opening(due: usize, text: &[u8]) -> Result<Opening<'_>, PartFault>
    ensures { MatchResult result (λ f. IsOpening due text.now f) (λ e. FailsWord (IsOneOf (openings due)) text.now e) }
{
    match word(text) {
        None => Err(PartFault::Stops(text.len())),
        Some((first, rest)) => {
            let mut buffer = Buffer::new();
            let digits = buffer.format(due).as_bytes();
            if first == digits {
                Ok(Opening::Numbered(rest))
            } else if first == b"end".as_slice() {
                Ok(Opening::Last(rest))
            } else {
                Err(other_word(text, first, &[digits, b"end"]))
            }
        }
    }
}

/// A step behind its number, to the end of its line.
fn step<'a>(alloc: Global, names: &Lookup, text: &'a [u8]) -> Result<(Step, &'a [u8]), PartFault>
    ensures { MatchResult result (λ r. GotStep names.now text.now r.0 r.1.now) (λ e. FailsStep names.now text.now e) }
{
    match sign(b' ', text) {
        None => Err(PartFault::Stops(text.len())),
        Some(named) => match read_rule(named) {
            Err(e) => Err(e),
            Ok((rule, wanted)) => match made(alloc, names, rule, wanted) {
                Err(e) => Err(e),
                Ok((step, end)) => match sign(b'\n', end) {
                    None => {
                        drop(step);
                        Err(PartFault::Stops(end.len()))
                    }
                    Some(rest) => Ok((step, rest)),
                },
            },
        },
    }
}

/// The end of the last line, with nothing behind it.
fn last(text: &[u8]) -> Result<(), PartFault>
    ensures { MatchResult result (λ u. cut text.now ≡ line_end ∷ []) (λ e. FailsLast text.now e) }
{
    match sign(b'\n', text) {
        None => Err(PartFault::Stops(text.len())),
        Some(rest) => {
            if rest.is_empty() {
                Ok(())
            } else {
                Err(PartFault::Stops(rest.len()))
            }
        }
    }
}

/// The steps of a proof and its last line.
pub fn read_steps(alloc: Global, names: &Lookup, text: &[u8]) -> Result<Rows<Step>, PartFault>
    ensures { MatchResult result (λ steps. GotSteps names.now text.now steps) (λ e. FailsSteps names.now text.now e) }
{
    let mut steps = Rows::begin(alloc);
    let mut rest = text;
    'steps: loop {
        match read_opening(steps.len(), rest) {
            Err(e) => return Err(e),
            Ok(Opening::Last(end)) => match last(end) {
                Err(e) => return Err(e),
                Ok(()) => return Ok(steps),
            },
            Ok(Opening::Numbered(numbered)) => match step(alloc, names, numbered) {
                Err(e) => return Err(e),
                Ok((next, behind)) => match steps.push(next) {
                    Err(_) => return Err(PartFault::NoMemory),
                    Ok(()) => {
                        rest = behind;
                    }
                },
            },
        }
    }
}
