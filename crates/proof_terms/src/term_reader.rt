ghost use Rattle.std.specs.Prelude.{◌≡◌, ◌≤◌, ◌<◌, ◌∷◌, ℕ, List, IfOk};
ghost use Rattle.proof_syntax.specs.Tokens.{cut, open_round, open_brace};
ghost use Rattle.proof_syntax.specs.Grammar.{most};
ghost use Rattle.proof_terms.specs.Terms.{ReadsTerm};

use crate::atom_reader::{read_constant, read_index, read_variable, read_word};
use crate::term_front::{TermFront, term_start};
use crate::{Lookup, read_type, sign};
use hol_terms::{Term, Ty};
use proof_syntax::PartFault;
use std::alloc::Global;
use text_kit::{NoMemory, Shared};

/// The level of the deepest terms.
const DEEPEST: u32 = 4096;

fn applied(alloc: Global, function: Term, argument: Term) -> Result<Term, NoMemory>
    ensures { IfOk result (λ t. t ≡ Term.App function argument) }
{
    let f = Shared::new(alloc, function)?;
    let x = Shared::new(alloc, argument)?;
    Ok(Term::App(f, x))
}

fn abstracted(alloc: Global, ty: Ty, body: Term) -> Result<Term, NoMemory>
    ensures { IfOk result (λ t. t ≡ Term.Lam ty body) }
{
    let inner = Shared::new(alloc, body)?;
    Ok(Term::Lam(ty, inner))
}

/// The parts of an application, behind its opening bracket.
#[cycle(terms)]
fn read_application<'a>(
    alloc: Global,
    names: &Lookup,
    level: u32,
    inner: &'a [u8],
) -> Result<(Term, &'a [u8]), PartFault>
    requires { level < most }
    ensures { (text : List ℕ) → cut text ≡ open_round ∷ cut inner.now → ReadsTerm names.now level text result }
{
    match read_term(alloc, names, level + 1, &*inner) {
        Err(e) => Err(e),
        Ok((function, end)) => match sign(b' ', end) {
            None => Err(PartFault::Stops(end.len())),
            Some(more) => match read_term(alloc, names, level + 1, more) {
                Err(e) => Err(e),
                Ok((argument, end)) => match sign(b')', end) {
                    None => Err(PartFault::Stops(end.len())),
                    Some(rest) => match applied(alloc, function, argument) {
                        Err(NoMemory) => Err(PartFault::NoMemory),
                        Ok(term) => Ok((term, rest)),
                    },
                },
            },
        },
    }
}

/// The type and the body of a lambda, behind its opening brace.
#[cycle(terms)]
fn read_lambda<'a>(
    alloc: Global,
    names: &Lookup,
    level: u32,
    inner: &'a [u8],
) -> Result<(Term, &'a [u8]), PartFault>
    requires { level < most }
    ensures { (text : List ℕ) → cut text ≡ open_brace ∷ cut inner.now → ReadsTerm names.now level text result }
{
    match read_type(alloc, names, inner) {
        Err(e) => Err(e),
        Ok((ty, end)) => match sign(b'}', end) {
            None => Err(PartFault::Stops(end.len())),
            Some(behind) => match read_term(alloc, names, level + 1, behind) {
                Err(e) => Err(e),
                Ok((body, rest)) => match abstracted(alloc, ty, body) {
                    Err(NoMemory) => Err(PartFault::NoMemory),
                    Ok(term) => Ok((term, rest)),
                },
            },
        },
    }
}

/// Reads the term at the front of a text, which stands at this level.
#[cycle(terms)]
pub fn read_term<'a>(
    alloc: Global,
    names: &Lookup,
    level: u32,
    text: &'a [u8],
) -> Result<(Term, &'a [u8]), PartFault>
    requires { level ≤ most }
    ensures { ReadsTerm names.now level text.now result }
{
    match term_start(text) {
        TermFront::Word(word, behind) => read_word(alloc, names, text, word, behind),
        TermFront::Hash(digits) => read_index(digits),
        TermFront::Dollar(digits) => read_variable(alloc, names, digits),
        TermFront::Dot(name) => read_constant(names, name),
        TermFront::Round(inner) => {
            if level < DEEPEST {
                read_application(alloc, names, level, inner)
            } else {
                Err(PartFault::GoesBeyond(text.len()))
            }
        }
        TermFront::Brace(inner) => {
            if level < DEEPEST {
                read_lambda(alloc, names, level, inner)
            } else {
                Err(PartFault::GoesBeyond(text.len()))
            }
        }
        TermFront::Other => Err(PartFault::Stops(text.len())),
    }
}
