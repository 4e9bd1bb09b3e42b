ghost use Rattle.std.specs.Prelude.{◌≡◌, All, IfOk};
ghost use Rattle.fo_infer.specs.Inferences.{BetweenAt, Between, BetweenPlain, renamed_apart};
ghost use Rattle.fo_infer.specs.inner.Findings.{IsPlaced, all_made};
ghost use Rattle.fo_infer.specs.inner.Places.{position_of};

use crate::meeting::may_infer;
use crate::paramodulating::paramodulate;
use crate::renaming::renamed;
use crate::resolving::resolve;
use crate::writing::write_all;
use crate::{Finding, Made};
use fo_terms::{Clause, Literal};
use std::alloc::Global;
use text_kit::{NoMemory, Rows};

/// The inferences of two clauses in order, before their clauses are written. `apart` are the right clause's literals renamed apart.
pub fn find_between<'a>(
    alloc: Global,
    plain: bool,
    p: &'a Clause,
    q: &'a Clause,
    apart: &'a Rows<Literal>,
) -> Result<Rows<Finding<'a>>, NoMemory>
    requires { apart.now ≡ renamed_apart p.now q.now }
    ensures inferences { IfOk result (λ found. BetweenAt (position_of plain) p.now q.now (all_made p.now apart.now found)) }
    ensures placed { IfOk result (λ found. All (λ f. IsPlaced p.now apart.now f.rule) found) }
{
    let mut out = Rows::begin(alloc);
    resolve(alloc, p, q, apart, &mut out)?;
    paramodulate(alloc, plain, p, q, apart, &mut out)?;
    Ok(out)
}

fn between_at(alloc: Global, plain: bool, p: &Clause, q: &Clause) -> Result<Rows<Made>, NoMemory>
    ensures { IfOk result (λ made. BetweenAt (position_of plain) p.now q.now made) }
{
    if !may_infer(p, q) {
        return Ok(Rows::begin(alloc));
    }
    let apart = renamed(alloc, p, q)?;
    let found = find_between(alloc, plain, p, q, &apart)?;
    let made = write_all(alloc, p, &apart, found)?;
    Ok(made)
}

/// The inferences of two clauses, in order: resolution, and then paramodulation of the left clause's equations into
/// the right one, at tags on cores that are no variables. A symbol with exactly one argument counts as a tag.
///
/// The right clause's variables are renamed apart; where one would pass `u64::MAX`, the answer is `NoMemory`.
/// Clauses in normal form never come near.
///
/// (J. A. Robinson, 1965; G. Robinson and L. Wos, 1969, with the order's restrictions of Bachmair and Ganzinger,
/// 1994, in a simpler form.)
pub fn between(alloc: Global, p: &Clause, q: &Clause) -> Result<Rows<Made>, NoMemory>
    ensures { IfOk result (λ made. Between p.now q.now made) }
{
    let made = between_at(alloc, false, p, q)?;
    Ok(made)
}

/// The same, with paramodulation at every subterm that is no variable, but for the whole term of an atom that is no
/// equation.
pub fn between_plain(alloc: Global, p: &Clause, q: &Clause) -> Result<Rows<Made>, NoMemory>
    ensures { IfOk result (λ made. BetweenPlain p.now q.now made) }
{
    let made = between_at(alloc, true, p, q)?;
    Ok(made)
}
