ghost use Rattle.std.specs.Prelude.{◌≡◌, ℕ, ◌≤◌, MatchResult};
ghost use Rattle.proof_syntax.specs.Grammar.{most};
ghost use Rattle.proof_syntax.specs.Parts.{GotType, FailsType};
ghost use Rattle.proof_terms.specs.inner.Turns.{Begins, FailsToBegin, GoesOn, FailsToGoOn};

use crate::sides::{Side, Sides};
use crate::{Lookup, read_name, sign};
use hol_terms::{Ty, arrow};
use proof_syntax::PartFault;
use std::alloc::Global;
use text_kit::NoMemory;
use theory_terms::Names;

/// What comes behind a part of a type.
pub(crate) enum Turn<'a> {
    /// Nothing: the type is whole.
    Ends(Ty),
    /// A type that is wanted, before these bytes.
    Wants(&'a [u8]),
    /// The end of this type, before these bytes.
    Has(Ty, &'a [u8]),
}

/// One token where a type is wanted: it opens a side, or is the name of a base type.
fn begin<'a>(
    names: &Names,
    sides: &mut Sides,
    text: &'a [u8],
) -> Result<(Option<Ty>, &'a [u8]), PartFault>
    ensures { MatchResult result (λ r. Begins names.now text.now sides.old sides.new r.0 r.1.now) (λ e. FailsToBegin names.now text.now e) }
{
    match sign(b'(', text) {
        Some(inner) => match sides.open(Side::From) {
            Ok(()) => Ok((None, inner)),
            Err(NoMemory) => Err(PartFault::NoMemory),
        },
        None => match read_name(names, text) {
            Ok((base, rest)) => Ok((Some(Ty::Base(base)), rest)),
            Err(e) => Err(e),
        },
    }
}

/// One token behind a type: it turns to the right side, or ends an arrow.
fn go_on<'a>(
    alloc: Global,
    sides: &mut Sides,
    had: Ty,
    text: &'a [u8],
) -> Result<Turn<'a>, PartFault>
    ensures { MatchResult result (λ t. GoesOn text.now sides.old sides.new had t) (λ e. FailsToGoOn text.now sides.old e) }
{
    match sides.take() {
        None => Ok(Turn::Ends(had)),
        Some(Side::From) => match sign(b'>', text) {
            None => Err(PartFault::Stops(text.len())),
            Some(more) => match sides.open(Side::To(had)) {
                Ok(()) => Ok(Turn::Wants(more)),
                Err(NoMemory) => Err(PartFault::NoMemory),
            },
        },
        Some(Side::To(from)) => match sign(b')', text) {
            None => Err(PartFault::Stops(text.len())),
            Some(rest) => match arrow(alloc, from, had) {
                Ok(whole) => Ok(Turn::Has(whole, rest)),
                Err(NoMemory) => Err(PartFault::NoMemory),
            },
        },
    }
}

/// Reads the type at the front of a text.
///
/// The grammar sets no limit to the nesting of types, so their open sides are kept in a list; a type more than 50,000
/// deep is answered by want of memory, since what walks down it needs the machine's stack. All tokens of a type stand at the level of its place.
pub fn read_type<'a>(
    alloc: Global,
    names: &Lookup,
    text: &'a [u8],
) -> Result<(Ty, &'a [u8]), PartFault>
    ensures { (l : ℕ) → l ≤ most → MatchResult result (λ r. GotType names.now l text.now r.0 r.1.now) (λ e. FailsType names.now l text.now e) }
{
    let mut sides = Sides::begin(alloc);
    let mut had = None;
    let mut rest = text;
    'tokens: loop {
        match had {
            None => match begin(names.types(), &mut sides, rest) {
                Err(e) => return Err(e),
                Ok((base, end)) => {
                    had = base;
                    rest = end;
                }
            },
            Some(part) => match go_on(alloc, &mut sides, part, rest) {
                Err(e) => return Err(e),
                Ok(Turn::Ends(whole)) => return Ok((whole, rest)),
                Ok(Turn::Wants(more)) => {
                    had = None;
                    rest = more;
                }
                Ok(Turn::Has(whole, end)) => {
                    had = Some(whole);
                    rest = end;
                }
            },
        }
    }
}
