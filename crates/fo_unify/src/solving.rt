ghost use Rattle.std.specs.Prelude.{◌≡◌, [], ◌∷◌, ℕ, IsTrue, IfOk, List, map};
ghost use Rattle.fo_terms.specs.declared.term.FoTerm.{FoTerm};
ghost use Rattle.fo_terms.specs.Substitution.{put};
ghost use Rattle.fo_unify.specs.inner.Triangle.{Good, solution, resolved};
ghost use Rattle.fo_unify.specs.Shown.{as_binds, shown};
ghost use Rattle.fo_unify.specs.Unifier.{Equates, UnifierOf};
ghost use Rattle.fo_unify.specs.Unified.{MetBy, MadeByRules};

use crate::bound::Bindings;
use crate::subst::{Bind, Subst};
use crate::triangle::{Equation, Found, Held, next, walk};
use fo_terms::FoTerm;
use std::alloc::Global;
use text_kit::{NoMemory, Rows};

/// The term with the bindings put through it.
#[cycle(resolving)]
pub fn resolve(alloc: Global, t: &FoTerm, binds: &[Held]) -> Result<FoTerm, NoMemory>
    requires { Good (as_binds binds.now) }
    ensures { IfOk result (λ s. s ≡ put (solution (as_binds binds.now)) t.now) }
{
    match walk(&*binds, &*t) {
        FoTerm::Var(y) => Ok(FoTerm::Var(*y)),
        FoTerm::Fun(f, args) => Ok(FoTerm::Fun(*f, resolve_all(alloc, args.as_slice(), &*binds)?)),
    }
}

#[cycle(resolving)]
fn resolve_all(alloc: Global, ts: &[FoTerm], binds: &[Held]) -> Result<Rows<FoTerm>, NoMemory>
    requires { Good (as_binds binds.now) }
    ensures { IfOk result (λ s. s ≡ map (put (solution (as_binds binds.now))) ts.now) }
{
    let mut out = Rows::begin(alloc);
    for t in ts {
        out.push(resolve(alloc, t, &*binds)?)?;
    }
    Ok(out)
}

/// The solved form of bindings in the order in which they were made.
pub fn solved_form(alloc: Global, binds: &[Held]) -> Result<Rows<Bind>, NoMemory>
    requires { Good (as_binds binds.now) }
    ensures { IfOk result (λ out. out ≡ resolved (as_binds binds.now)) }
{
    let mut out = Rows::begin(alloc);
    for b in binds {
        out.push(Bind {
            var: b.var,
            term: resolve(alloc, b.term, &*binds)?,
        })?;
    }
    Ok(out)
}

/// Solves equations, all at once.
fn solve<'a>(alloc: Global, mut work: Rows<Equation<'a>>) -> Result<Option<Bindings<'a>>, NoMemory>
    ensures { IfOk result (λ u. MetBy (shown work.entry) u) }
{
    let mut binds = Rows::begin(alloc);
    'solving: while binds.len() < usize::MAX {
        match next(binds.as_slice(), &mut work)? {
            Found::Clash => return Ok(None),
            Found::Done => return Ok(Some(Bindings { binds })),
            Found::Binds(x, term) => binds.push(Held { var: x, term })?,
        }
    }
    Err(NoMemory)
}

/// Whether two terms have different symbols at their heads, or different numbers of arguments.
fn heads_clash(s: &FoTerm, t: &FoTerm) -> bool
    ensures { IsTrue result → (v : ℕ → FoTerm) → Equates v s.now t.now → ⊥ }
{
    match (s, t) {
        (FoTerm::Fun(f, xs), FoTerm::Fun(g, ys)) => {
            if *f != *g {
                return true;
            }
            if xs.len() != ys.len() {
                return true;
            }
            false
        }
        (FoTerm::Var(_), FoTerm::Fun(_, _)) => false,
        (FoTerm::Fun(_, _), FoTerm::Var(_)) => false,
        (FoTerm::Var(_), FoTerm::Var(_)) => false,
    }
}

/// A most general unifier of two terms, whose bindings lend parts of them; `None` where they have none.
///
/// The method is that of Martelli and Montanari (1982), with bindings that are put through no term. Where the heads differ it takes no
/// memory.
pub fn meet<'a>(
    alloc: Global,
    s: &'a FoTerm,
    t: &'a FoTerm,
) -> Result<Option<Bindings<'a>>, NoMemory>
    ensures { IfOk result (λ u. MetBy ((s.now, t.now) ∷ []) u) }
{
    if heads_clash(s, t) {
        return Ok(None);
    }
    let mut work = Rows::begin(alloc);
    work.push(Equation { left: s, right: t })?;
    let met = solve(alloc, work)?;
    Ok(met)
}

/// A most general unifier of two pairs of terms at once, whose bindings lend parts of them; `None` where they have none.
pub fn meet_both<'a>(
    alloc: Global,
    first: (&'a FoTerm, &'a FoTerm),
    second: (&'a FoTerm, &'a FoTerm),
) -> Result<Option<Bindings<'a>>, NoMemory>
    ensures { IfOk result (λ u. MetBy ((first.entry.0.now, first.entry.1.now) ∷ (second.entry.0.now, second.entry.1.now) ∷ []) u) }
{
    if heads_clash(first.0, first.1) {
        return Ok(None);
    }
    let mut work = Rows::begin(alloc);
    work.push(Equation {
        left: first.0,
        right: first.1,
    })?;
    work.push(Equation {
        left: second.0,
        right: second.1,
    })?;
    let met = solve(alloc, work)?;
    Ok(met)
}

fn written(alloc: Global, met: Option<Bindings>) -> Result<Option<Subst>, NoMemory>
    ensures answer { (es : List (FoTerm × FoTerm)) → MetBy es met.entry → IfOk result (λ u. UnifierOf es u) }
    ensures rules { (es : List (FoTerm × FoTerm)) → MetBy es met.entry → IfOk result (λ u. MadeByRules es u) }
{
    match met {
        None => Ok(None),
        Some(bindings) => Ok(Some(Subst {
            binds: bindings.solved(alloc)?,
        })),
    }
}

/// A most general unifier of two terms, in solved form; `None` where they have none.
///
/// The bindings are put through their terms only at the end. Two terms that are small as written can have a unifier whose terms are
/// exponentially large.
pub fn unify(alloc: Global, s: &FoTerm, t: &FoTerm) -> Result<Option<Subst>, NoMemory>
    ensures answer { IfOk result (λ u. UnifierOf ((s.now, t.now) ∷ []) u) }
    ensures rules { IfOk result (λ u. MadeByRules ((s.now, t.now) ∷ []) u) }
{
    let met = meet(alloc, s, t)?;
    let unifier = written(alloc, met)?;
    Ok(unifier)
}

/// A most general unifier of two pairs of terms at once, in solved form; `None` where they have none.
pub fn unify_both(
    alloc: Global,
    first: (&FoTerm, &FoTerm),
    second: (&FoTerm, &FoTerm),
) -> Result<Option<Subst>, NoMemory>
    ensures answer { IfOk result (λ u. UnifierOf ((first.entry.0.now, first.entry.1.now) ∷ (second.entry.0.now, second.entry.1.now) ∷ []) u) }
    ensures rules { IfOk result (λ u. MadeByRules ((first.entry.0.now, first.entry.1.now) ∷ (second.entry.0.now, second.entry.1.now) ∷ []) u) }
{
    let met = meet_both(alloc, first, second)?;
    let unifier = written(alloc, met)?;
    Ok(unifier)
}
