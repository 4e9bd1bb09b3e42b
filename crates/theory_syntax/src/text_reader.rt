ghost use Rattle.std.specs.Prelude.{◌≡◌, ℕ, ◌<◌, ◌≤◌, ◌∷◌, length, MatchResult};
ghost use Rattle.theory_syntax.specs.declared.tokens.Tok.TheVariants as tok;
ghost use Rattle.theory_syntax.specs.Machine.{Ends};
ghost use Rattle.theory_syntax.specs.inner.Front.{opening};
ghost use Rattle.theory_syntax.specs.inner.Parts.{Stands, IsNot, GotHyp, GotHyps, Fault_of_hyps, GotItem, Fault_of_item, Fault_of_all};
ghost use Rattle.theory_syntax.specs.Reading.{Reads, Refused, OneAnswer, SomeAnswer, Answer, Text, IsAnswer, Tells};

use crate::front::{Heading, ItemFront, behind, item_front, stands, word};
use crate::term_reader::formula;
use crate::type_reader::whole;
use crate::{Hyp, Item, Tok, Word};
use first_fault::Fault;
use std::alloc::Global;
use text_kit::Rows;

fn type_item<'a>(limit: u32, toks: &[Tok], named: &'a [Tok]) -> Result<(Item, &'a [Tok]), Fault>
    requires { toks.now ≡ tok.Type ∷ named.now }
    ensures { MatchResult result (λ r. GotItem limit toks.now r.0 r.1.now) (λ e. Fault_of_item limit toks.now e) }
{
    match word(named) {
        None => Err(Fault::Syntax(named.len())),
        Some((x, end)) => match behind(Tok::Semi, end) {
            None => Err(Fault::Syntax(end.len())),
            Some(rest) => Ok((Item::Type(x), rest)),
        },
    }
}

/// The name and the colon of a declaration.
fn headed<'a>(
    limit: u32,
    heading: Heading,
    toks: &[Tok],
    named: &'a [Tok],
) -> Result<(Word, &'a [Tok]), Fault>
    requires { toks.now ≡ opening heading ∷ named.now }
    ensures { MatchResult result (λ r. named.now ≡ tok.Word r.0 ∷ tok.Colon ∷ r.1.now) (λ e. Fault_of_item limit toks.now e) }
{
    match word(named) {
        None => Err(Fault::Syntax(named.len())),
        Some((x, stated)) => match behind(Tok::Colon, stated) {
            None => Err(Fault::Syntax(stated.len())),
            Some(body) => Ok((x, body)),
        },
    }
}

fn const_item<'a>(
    alloc: Global,
    limit: u32,
    toks: &[Tok],
    x: Word,
    body: &'a [Tok],
) -> Result<(Item, &'a [Tok]), Fault>
    requires { toks.now ≡ tok.Const ∷ tok.Word x ∷ tok.Colon ∷ body.now }
    ensures { MatchResult result (λ r. GotItem limit toks.now r.0 r.1.now) (λ e. Fault_of_item limit toks.now e) }
{
    match whole(alloc, limit, 0, body) {
        Err(e) => Err(e),
        Ok((a, end)) => match behind(Tok::Semi, end) {
            None => Err(Fault::Syntax(end.len())),
            Some(rest) => Ok((Item::Const(x, a), rest)),
        },
    }
}

fn fact_item<'a>(
    alloc: Global,
    limit: u32,
    toks: &[Tok],
    x: Word,
    body: &'a [Tok],
) -> Result<(Item, &'a [Tok]), Fault>
    requires { toks.now ≡ tok.Fact ∷ tok.Word x ∷ tok.Colon ∷ body.now }
    ensures { MatchResult result (λ r. GotItem limit toks.now r.0 r.1.now) (λ e. Fault_of_item limit toks.now e) }
{
    match formula(alloc, limit, 0, body) {
        Err(e) => Err(e),
        Ok((t, end)) => match behind(Tok::Semi, end) {
            None => Err(Fault::Syntax(end.len())),
            Some(rest) => Ok((Item::Fact(x, t), rest)),
        },
    }
}

/// An assumption at the front.
fn hyp<'a>(alloc: Global, limit: u32, toks: &'a [Tok]) -> Result<(Hyp, &'a [Tok]), Fault>
    requires { Stands tok.Assume toks.now }
    ensures { MatchResult result (λ r. GotHyp limit toks.now r.0 r.1.now) (λ e. Fault_of_hyps limit toks.now e) }
{
    match behind(Tok::Assume, &*toks) {
        None => Err(Fault::Syntax(toks.len())),
        Some(named) => match word(named) {
            None => Err(Fault::Syntax(named.len())),
            Some((name, stated)) => match behind(Tok::Colon, stated) {
                None => Err(Fault::Syntax(stated.len())),
                Some(body) => match formula(alloc, limit, 0, body) {
                    Err(e) => Err(e),
                    Ok((tree, rest)) => Ok((Hyp { name, tree }, rest)),
                },
            },
        },
    }
}

/// The assumptions at the front, as many as there are.
fn hyps<'a>(alloc: Global, limit: u32, toks: &'a [Tok]) -> Result<(Rows<Hyp>, &'a [Tok]), Fault>
    requires { Ends 6 toks.now }
    ensures { MatchResult result (λ r. GotHyps limit toks.now r.0 r.1.now × IsNot tok.Assume r.1.now) (λ e. Fault_of_hyps limit toks.now e) }
{
    let mut out = Rows::begin(alloc);
    let mut rest = toks;
    'more: while stands(Tok::Assume, rest) {
        match hyp(alloc, limit, rest) {
            Err(e) => return Err(e),
            Ok((h, end)) => match out.push(h) {
                Err(_) => return Err(Fault::NoMemory),
                Ok(()) => {
                    rest = end;
                }
            },
        }
    }
    Ok((out, rest))
}

fn goal_item<'a>(
    alloc: Global,
    limit: u32,
    toks: &[Tok],
    x: Word,
    body: &'a [Tok],
) -> Result<(Item, &'a [Tok]), Fault>
    requires { toks.now ≡ tok.Goal ∷ tok.Word x ∷ tok.Colon ∷ body.now }
    ensures { MatchResult result (λ r. GotItem limit toks.now r.0 r.1.now) (λ e. Fault_of_item limit toks.now e) }
{
    match formula(alloc, limit, 0, body) {
        Err(e) => Err(e),
        Ok((t, supposed)) => match hyps(alloc, limit, supposed) {
            Err(e) => Err(e),
            Ok((hs, end)) => match behind(Tok::Semi, end) {
                None => Err(Fault::Syntax(end.len())),
                Some(rest) => Ok((Item::Goal(x, t, hs), rest)),
            },
        },
    }
}

fn item<'a>(alloc: Global, limit: u32, toks: &'a [Tok]) -> Result<(Item, &'a [Tok]), Fault>
    requires { 0 < length toks.now }
    ensures { MatchResult result (λ r. GotItem limit toks.now r.0 r.1.now) (λ e. Fault_of_item limit toks.now e) }
{
    match item_front(&*toks) {
        ItemFront::Type(named) => type_item(limit, toks, named),
        ItemFront::Stated(heading, named) => match headed(limit, heading, &*toks, named) {
            Err(e) => Err(e),
            Ok((x, body)) => match heading {
                Heading::Const => const_item(alloc, limit, toks, x, body),
                Heading::Fact => fact_item(alloc, limit, toks, x, body),
                Heading::Goal => goal_item(alloc, limit, toks, x, body),
            },
        },
        ItemFront::Other => Err(Fault::Syntax(toks.len())),
    }
}

fn all(alloc: Global, limit: u32, toks: &[Tok]) -> Result<Rows<Item>, Fault>
    ensures { MatchResult result (λ v. Reads limit toks.now v) (λ e. Fault_of_all limit toks.now e) }
{
    let mut out = Rows::begin(alloc);
    let mut rest = toks;
    'items: while rest.len() > 0 {
        match item(alloc, limit, rest) {
            Err(e) => return Err(e),
            Ok((d, end)) => match out.push(d) {
                Err(_) => return Err(Fault::NoMemory),
                Ok(()) => {
                    rest = end;
                }
            },
        }
    }
    Ok(out)
}

fn read_at(alloc: Global, limit: u32, toks: &[Tok]) -> Result<Rows<Item>, Fault>
    ensures { MatchResult result (λ v. Reads limit toks.now v) (λ e. Refused limit toks.now e) }
{
    match all(alloc, limit, toks) {
        Ok(out) => Ok(out),
        Err(e) => Err(e.counted(toks.len())),
    }
}

/// Reads the tokens of a whole file as its declarations, with every level within `limit`.
///
/// A fault names the place, among the tokens, of the first one at which no theory goes on, or of the first one
/// whose level is above the limit; where both are at one token it is `Syntax`.
pub fn read(alloc: Global, limit: u32, toks: &[Tok]) -> Result<Rows<Item>, Fault>
    // What is read is derivable, and a fault is at its place.
    ensures found { MatchResult result (λ v. Reads limit toks.now v) (λ e. Refused limit toks.now e) }
    // The answer that the tokens have is given, unless memory runs out.
    ensures only { (a : Answer) → IsAnswer limit toks.now a → MatchResult result (λ v. a ≡ Text v) (λ e. Tells a e) }
{
    read_at(alloc, limit, toks)
}

/// Each list of tokens has one answer, and none has two.
pub fn one_answer()
    ensures some { SomeAnswer }
    ensures one { OneAnswer }
{}
