ghost use Rattle.std.specs.Prelude.{◌≡◌, ◌<◌, ◌^◌, length, IfOk};
ghost use Rattle.theory_terms.specs.Answers.{Answer};
ghost use Rattle.theory_reader.specs.Declarations.{Declarations};
ghost use Rattle.theory_reader.specs.Declaring.{nothing, theory_of};
ghost use Rattle.theory_reader.specs.Seen.{declarations};
ghost use Rattle.theory_reader.specs.Reading.{Reads, ReadsItems, IsReadAs, IsAnswer, Tells, SomeAnswer, OneAnswer};
ghost use Rattle.theory_reader.specs.inner.Stages.{so_far, Agrees, IsSound};
ghost use Rattle.theory_reader.specs.inner.Pieces.{ReadSoFar};

use crate::declare::declare;
use crate::items::items;
use crate::parts::Parts;
use crate::piece::{Unread, piece_items, statement_end};
use crate::{Fact, Goal, Theory, TheoryFault};
use std::alloc::Global;
use text_kit::{Bytes, NoMemory, Rows};
use theory_syntax::Item;
use theory_terms::{Decl, Known, Names};

/// Nothing declared.
fn begin<'t>(alloc: Global) -> Parts<'t>
    ensures nothing { so_far result ≡ nothing }
    ensures agrees { Agrees result }
{
    Parts {
        known: Known::begin(alloc),
        fact_names: Names::begin(alloc),
        goal_names: Names::begin(alloc),
        facts: Rows::begin(alloc),
        goals: Rows::begin(alloc),
    }
}

/// A theory of these parts, where its types and goals can be numbered.
fn theory(
    types: Rows<Bytes>,
    consts: Rows<Decl>,
    facts: Rows<Fact>,
    goals: Rows<Goal>,
) -> Result<Theory, NoMemory>
    requires { IsSound (record { types = types; consts = consts; facts = facts; goals = goals }) }
    ensures { IfOk result (λ t. declarations t ≡ record { types = types; consts = consts; facts = facts; goals = goals }) }
{
    let most = u32::MAX as usize;
    if types.len() < most && goals.len() <= most {
        Ok(Theory {
            types,
            consts,
            facts,
            goals,
        })
    } else {
        Err(NoMemory)
    }
}

fn whole(alloc: Global, parts: Parts) -> Result<Theory, NoMemory>
    requires { IsSound (so_far parts) }
    ensures { IfOk result (λ t. declarations t ≡ so_far parts.entry) }
{
    let (types, consts) = parts.known.into_parts(alloc)?;
    theory(types, consts, parts.facts, parts.goals)
}

fn declared(alloc: Global, text: &[u8], items: &[Item]) -> Result<Theory, TheoryFault>
    requires { ReadsItems text.now items.now }
    ensures { Tells (theory_of text.now items.now) result }
{
    let mut parts = begin(alloc);
    match declare(alloc, &mut parts, text, items) {
        Err(e) => Err(e),
        Ok(()) => match whole(alloc, parts) {
            Ok(theory) => Ok(theory),
            Err(_) => Err(TheoryFault::NoMemory),
        },
    }
}

fn read_at_once(alloc: Global, text: &[u8]) -> Result<Theory, TheoryFault>
    ensures { IsReadAs text.now result }
{
    match items(alloc, text) {
        Err(e) => Err(e),
        Ok(found) => declared(alloc, text, found.as_slice()),
    }
}

/// Declares the statements of a text one after another, with room for the tokens and the trees of one of them.
fn statements(alloc: Global, text: &[u8]) -> Result<Parts<'_>, Unread>
    ensures { IfOk result (ReadSoFar text.now (length text.now)) }
{
    let mut parts = begin(alloc);
    let mut at = 0;
    'statements: while at < text.len() {
        let end = statement_end(text, at);
        let items = piece_items(alloc, text, at, end)?;
        declare(alloc, &mut parts, text, items.as_slice())?;
        at = end;
    }
    Ok(parts)
}

fn by_statements(alloc: Global, text: &[u8]) -> Result<Theory, Unread>
    ensures { IfOk result (λ t. Reads text.now (declarations t)) }
{
    let parts = statements(alloc, text)?;
    Ok(whole(alloc, parts)?)
}

/// A statement's fault is the text's first only where no bad byte and no wrong token stands behind it. So a text in
/// which a statement has one is read again, at once.
fn read_all(alloc: Global, text: &[u8]) -> Result<Theory, TheoryFault>
    ensures { IsReadAs text.now result }
{
    match by_statements(alloc, text) {
        Ok(theory) => Ok(theory),
        Err(Unread::NoMemory) => Err(TheoryFault::NoMemory),
        Err(Unread::Fault) => read_at_once(alloc, text),
    }
}

/// Reads a theory file.
///
/// A fault is the first one: a byte that begins no token; else the first token at which no theory goes on or whose
/// level is above 256; else the first fault of the declarations, each read from left to right and its parts before the
/// whole. It names the first byte of what is at fault, or the text's length where the text ends too early.
pub fn read(alloc: Global, text: &[u8]) -> Result<Theory, TheoryFault>
    requires { length text.now < 2 ^ 32 }
    // What is read is what the text says, and a fault is its fault.
    ensures found { IsReadAs text.now result }
    // The answer that the text has is given, unless memory runs out.
    ensures only { (a : Answer Declarations) → IsAnswer text.now a → Tells a result }
{
    one_answer();
    read_all(alloc, text)
}

/// Each text has one answer, and none has two.
pub fn one_answer()
    ensures some { SomeAnswer }
    ensures one { OneAnswer }
{
    text_kit::one_cut();
    theory_syntax::one_answer();
}
