ghost use Rattle.std.specs.Prelude.{◌≡◌, ◌↔◌, ◌≤◌, ℕ, false, IsTrue, IfOk, OnOk, length};
ghost use Rattle.fo_terms.specs.Substitution.{occurs_in, occurs_in_any};
ghost use Rattle.fo_infer.specs.inner.Components.{literals, occurs_literal, Off, OffAll, SortsOut, Splits, Apart, Sendable};

use crate::covering::covers;
use crate::seeking::Sought;
use fo_terms::{Atom, FoTerm, Literal};
use fo_unify::occurs;
use std::alloc::Global;
use text_kit::{NoMemory, Rows};

fn stands_in(x: u64, l: &Literal) -> bool
    ensures { result ≡ occurs_literal x l.now }
{
    match &l.atom {
        Atom::Holds(t) => occurs(x, t),
        Atom::Eq(s, t) => occurs(x, s) || occurs(x, t),
    }
}

#[cycle(sharing)]
fn term_shares(t: &FoTerm, m: &Literal) -> bool
    ensures { result ≡ false → (x : ℕ) → IsTrue (occurs_in x t.now) → occurs_literal x m.now ≡ false }
{
    match t {
        FoTerm::Var(x) => stands_in(*x, m),
        FoTerm::Fun(_, args) => terms_share(args.as_slice(), m),
    }
}

#[cycle(sharing)]
fn terms_share(ts: &[FoTerm], m: &Literal) -> bool
    ensures { result ≡ false → (x : ℕ) → IsTrue (occurs_in_any x ts.now) → occurs_literal x m.now ≡ false }
{
    for t in ts {
        if term_shares(t, &*m) {
            return true;
        }
    }
    false
}

/// Whether two literals have a variable in common.
fn shares(l: &Literal, m: &Literal) -> bool
    ensures { result ≡ false → Off m.now l.now }
{
    match &l.atom {
        Atom::Holds(t) => term_shares(t, m),
        Atom::Eq(s, t) => term_shares(s, &*m) || term_shares(t, m),
    }
}

fn shares_some(part: &[Sought], l: &Literal) -> bool
    ensures { result ≡ false → OffAll (literals part.now) l.now }
{
    for s in part {
        if shares(&*l, s.literal) {
            return true;
        }
    }
    false
}

/// Puts a literal to those that it shares a variable with, or to the others.
fn sort_out<'a>(
    part: &mut Rows<Sought<'a>>,
    others: &mut Rows<Sought<'a>>,
    s: Sought<'a>,
) -> Result<(), NoMemory>
    ensures { OnOk result (SortsOut (literals part.old) (literals others.old) s.entry.literal.now (literals part.new) (literals others.new)) }
{
    if shares_some(part.as_slice(), s.literal) {
        part.push(s)?;
        return Ok(());
    }
    others.push(s)?;
    Ok(())
}

/// Moves literals to the part that they share variables with, and gives the others.
fn pass<'a>(
    alloc: Global,
    part: &mut Rows<Sought<'a>>,
    rest: &[Sought<'a>],
) -> Result<Rows<Sought<'a>>, NoMemory>
    ensures splits { IfOk result (λ others. Splits (literals part.old) (literals rest.now) (literals part.new) (literals others)) }
    ensures fewer { IfOk result (λ others. length others ≤ length rest.now) }
    ensures apart { IfOk result (λ others. length others ≡ length rest.now → Apart (literals part.new) (literals others)) }
{
    let mut others = Rows::begin(alloc);
    for s in rest {
        sort_out(part, &mut others, *s)?;
    }
    Ok(others)
}

/// Moves all literals to the part that hang together with it, and gives the others.
fn grow<'a>(
    alloc: Global,
    part: &mut Rows<Sought<'a>>,
    rest: &[Sought<'a>],
) -> Result<Rows<Sought<'a>>, NoMemory>
    ensures splits { IfOk result (λ others. Splits (literals part.old) (literals rest.now) (literals part.new) (literals others)) }
    ensures fewer { IfOk result (λ others. length others ≤ length rest.now) }
    ensures apart { IfOk result (λ others. Apart (literals part.new) (literals others)) }
{
    let others = pass(alloc, part, rest)?;
    if others.len() >= rest.len() {
        return Ok(others);
    }
    let more = grow(alloc, part, others.as_slice())?;
    Ok(more)
}

/// Whether one substitution sends each literal to one of `d`. Literals that share no variables are looked at apart.
pub fn covers_components(alloc: Global, rest: &[Sought], d: &[Literal]) -> Result<bool, NoMemory>
    ensures { IfOk result (λ b. IsTrue b ↔ Sendable d.now (literals rest.now)) }
{
    if rest.len() == 0 {
        return Ok(true);
    }
    let mut part = Rows::begin(alloc);
    part.push(rest[0])?;
    let others = grow(alloc, &mut part, &rest[1..])?;
    let mut binds = Rows::begin(alloc);
    if !covers(part.as_slice(), 0, d, &mut binds)? {
        return Ok(false);
    }
    let made = covers_components(alloc, others.as_slice(), d)?;
    Ok(made)
}
