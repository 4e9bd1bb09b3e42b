ghost use Rattle.std.specs.Prelude.{◌≡◌, ℕ, ◌+◌, ◌≤◌, MatchResult, IfOk};
ghost use Rattle.theory_syntax.specs.Grammar.{Whole, Single};
ghost use Rattle.theory_syntax.specs.inner.Parts.{GotTy, Fault_of_ty};

use crate::front::{TypeFront, behind, type_front};
use crate::{Tok, TyTree};
use first_fault::Fault;
use std::alloc::Global;
use text_kit::{NoMemory, Shared};

fn arrow(alloc: Global, a: TyTree, b: TyTree) -> Result<TyTree, NoMemory>
    ensures { IfOk result (λ t. t ≡ TyTree.Arrow a b) }
{
    let from = Shared::new(alloc, a)?;
    let to = Shared::new(alloc, b)?;
    Ok(TyTree::Arrow(from, to))
}

/// The fault of a type that would stand above the limit.
fn beyond(limit: u32, level: u32, toks: &[Tok]) -> Fault
    requires { limit ≤ level }
    ensures { Fault_of_ty limit (level + 1) Whole toks.now result }
{
    match type_front(toks) {
        TypeFront::Word(_, _) => Fault::TooDeep(toks.len()),
        TypeFront::Bool(_) => Fault::TooDeep(toks.len()),
        TypeFront::Open(_, _) => Fault::TooDeep(toks.len()),
        TypeFront::Other => Fault::Syntax(toks.len()),
    }
}

#[cycle(types)]
fn deeper<'a>(
    alloc: Global,
    limit: u32,
    level: u32,
    toks: &'a [Tok],
) -> Result<(TyTree, &'a [Tok]), Fault>
    requires { level ≤ limit }
    ensures { MatchResult result (λ r. GotTy limit (level + 1) Whole toks.now r.0 r.1.now) (λ e. Fault_of_ty limit (level + 1) Whole toks.now e) }
{
    if level < limit {
        whole(alloc, limit, level + 1, &*toks)
    } else {
        Err(beyond(limit, level, toks))
    }
}

#[cycle(types)]
fn single<'a>(
    alloc: Global,
    limit: u32,
    level: u32,
    toks: &'a [Tok],
) -> Result<(TyTree, &'a [Tok]), Fault>
    requires { level ≤ limit }
    ensures { MatchResult result (λ r. GotTy limit level Single toks.now r.0 r.1.now) (λ e. Fault_of_ty limit level Single toks.now e) }
{
    match type_front(toks) {
        TypeFront::Word(x, rest) => Ok((TyTree::Named(x), rest)),
        TypeFront::Bool(rest) => Ok((TyTree::Bool, rest)),
        TypeFront::Open(_, inner) => match deeper(alloc, limit, level, inner) {
            Err(e) => Err(e),
            Ok((a, end)) => match behind(Tok::Close, end) {
                None => Err(Fault::Syntax(end.len())),
                Some(rest) => Ok((a, rest)),
            },
        },
        TypeFront::Other => Err(Fault::Syntax(toks.len())),
    }
}

/// Reads a type at the front.
#[cycle(types)]
pub(crate) fn whole<'a>(
    alloc: Global,
    limit: u32,
    level: u32,
    toks: &'a [Tok],
) -> Result<(TyTree, &'a [Tok]), Fault>
    requires { level ≤ limit }
    ensures { MatchResult result (λ r. GotTy limit level Whole toks.now r.0 r.1.now) (λ e. Fault_of_ty limit level Whole toks.now e) }
{
    match single(alloc, limit, level, &*toks) {
        Err(e) => Err(e),
        Ok((a, end)) => match behind(Tok::Arrow, end) {
            None => Ok((a, end)),
            Some(more) => match deeper(alloc, limit, level, more) {
                Err(e) => Err(e),
                Ok((b, rest)) => match arrow(alloc, a, b) {
                    Err(_) => Err(Fault::NoMemory),
                    Ok(t) => Ok((t, rest)),
                },
            },
        },
    }
}
