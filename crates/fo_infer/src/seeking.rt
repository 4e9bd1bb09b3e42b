ghost use Rattle.std.specs.Prelude.{◌≡◌, ◌+◌, ◌^◌, ◌<◌, ℕ, true, false, [], IfOk, OnOk, Contains};
ghost use Rattle.fo_terms.specs.declared.term.FoTerm.{FoTerm};
ghost use Rattle.fo_terms.specs.Substitution.{put_literal};
ghost use Rattle.fo_infer.specs.inner.Components.{literals, Sought_in, SameSends};

use crate::covering::{match_literal, undo};
use fo_terms::Literal;
use fo_unify::Held;
use std::alloc::Global;
use text_kit::{NoMemory, Rows};

/// A literal, and the number of its partners: the literals that it can be sent to alone.
#[derive(Clone, Copy, Drop)]
pub struct Sought<'a> {
    pub literal: &'a Literal,
    pub partners: usize,
}

fn is_partner<'a>(l: &Literal, m: &'a Literal, binds: &mut Rows<Held<'a>>) -> Result<bool, NoMemory>
    requires { binds.old ≡ [] }
    ensures empty { OnOk result (binds.new ≡ []) }
    ensures none { IfOk result (λ made. made ≡ false → (v : ℕ → FoTerm) → put_literal v l.now ≡ m.now → ⊥) }
{
    let made = match_literal(l, m, binds)?;
    undo(binds, 0);
    Ok(made)
}

fn count(n: usize, more: bool) -> usize
    requires { n + 1 < 2 ^ 64 }
    ensures grows { more ≡ true → result ≡ n + 1 }
    ensures stays { more ≡ false → result ≡ n }
{
    if more { n + 1 } else { n }
}

/// How many of the literals this one can be sent to alone.
pub fn partners(alloc: Global, l: &Literal, d: &[Literal]) -> Result<usize, NoMemory>
    ensures { IfOk result (λ n. n ≡ 0 → (v : ℕ → FoTerm) → Contains d.now (put_literal v l.now) → ⊥) }
{
    let mut binds = Rows::begin(alloc);
    let mut n = 0;
    for m in d {
        let made = is_partner(l, m, &mut binds)?;
        n = count(n, made);
    }
    Ok(n)
}

/// The literals with the numbers of their partners, or `None` where one has no partner.
pub fn seek<'a>(
    alloc: Global,
    c: &'a [Literal],
    d: &[Literal],
) -> Result<Option<Rows<Sought<'a>>>, NoMemory>
    ensures { IfOk result (λ found. Sought_in c.now d.now found) }
{
    let mut found = Rows::begin(alloc);
    for l in c {
        let n = partners(alloc, l, d)?;
        if n == 0 {
            return Ok(None);
        }
        found.push(Sought {
            literal: l,
            partners: n,
        })?;
    }
    Ok(Some(found))
}

/// The same literals, those with the fewest partners first.
pub fn fewest_first(found: Rows<Sought>) -> Result<Rows<Sought>, NoMemory>
    ensures { IfOk result (λ out. SameSends (literals found.entry) (literals out)) }
{
    let mut items = found.into_vec();
    match items.sort_by_key(|s| s.partners) {
        Ok(()) => Ok(Rows::from_vec(items)),
        Err(_) => Err(NoMemory),
    }
}
