ghost use Rattle.std.specs.Prelude.{◌≡◌, Some, IfOk};
ghost use Rattle.std.specs.FinSet as set;
ghost use Rattle.kernel_rules.specs.Rules.{fact_of, assume_of, imp_intro_of, imp_elim_of, and_intro_of, and_left_of, and_right_of, or_left_of, or_right_of, or_elim_of, not_intro_of, not_elim_of, true_intro_of, classical_of};
ghost use Rattle.kernel_rules.specs.Connectives.{left_of, neg, right_of};

use crate::connectives::{conjunction, disjunction, implication, negation};
use crate::sequent::Sequent;
use crate::shapes::{
    is_conjunction, is_disjunction, is_falsum, is_implication, is_negation, left, right,
};
use hol_terms::{Konst, Sig, Term, copy, is_formula};
use hyp_sets::{Hyps, tied};
use std::alloc::Global;
use text_kit::NoMemory;

/// `{} : F`
pub fn fact(alloc: Global, t: &Term) -> Result<Option<Sequent>, NoMemory>
    ensures { IfOk result (λ o. o ≡ fact_of t.now) }
{
    let hyps = Hyps::none(alloc)?;
    Ok(Some(Sequent {
        hyps,
        concl: copy(t)?,
    }))
}

/// `{t} : t`
pub fn assume(alloc: Global, sig: &Sig, t: &Term) -> Result<Option<Sequent>, NoMemory>
    ensures { IfOk result (λ o. o ≡ assume_of sig.now t.now) }
{
    if !is_formula(alloc, sig, t)? {
        return Ok(None);
    }
    let hyps = Hyps::one(alloc, copy(t)?)?;
    Ok(Some(Sequent {
        hyps,
        concl: copy(t)?,
    }))
}

/// From `G : c` to `G - t : t ==> c`.
pub fn imp_intro(
    alloc: Global,
    sig: &Sig,
    t: &Term,
    p: &Sequent,
) -> Result<Option<Sequent>, NoMemory>
    ensures { IfOk result (λ o. o ≡ imp_intro_of sig.now t.now p.now) }
{
    if !is_formula(alloc, sig, t)? {
        return Ok(None);
    }
    let hyps = p.hyps.without(alloc, t)?;
    let concl = implication(alloc, t, &p.concl)?;
    Ok(Some(Sequent { hyps, concl }))
}

/// From `G : a ==> b` and `D : a` to `G + D : b`.
pub fn imp_elim(alloc: Global, p: &Sequent, q: &Sequent) -> Result<Option<Sequent>, NoMemory>
    ensures { IfOk result (λ o. o ≡ imp_elim_of p.now q.now) }
{
    if !(is_implication(&p.concl) && tied(left(&p.concl), &q.concl)) {
        return Ok(None);
    }
    let hyps = p.hyps.union(alloc, &q.hyps)?;
    let concl = copy(right(&p.concl))?;
    Ok(Some(Sequent { hyps, concl }))
}

/// From `G : a` and `D : b` to `G + D : a & b`.
pub fn and_intro(alloc: Global, p: &Sequent, q: &Sequent) -> Result<Option<Sequent>, NoMemory>
    ensures { IfOk result (λ o. o ≡ and_intro_of p.now q.now) }
{
    let hyps = p.hyps.union(alloc, &q.hyps)?;
    let concl = conjunction(alloc, &p.concl, &q.concl)?;
    Ok(Some(Sequent { hyps, concl }))
}

/// From `G : a & b` to `G : a`.
pub fn and_left(p: &Sequent) -> Result<Option<Sequent>, NoMemory>
    ensures { IfOk result (λ o. o ≡ and_left_of p.now) }
{
    if !is_conjunction(&p.concl) {
        return Ok(None);
    }
    let hyps = p.hyps.again()?;
    let concl = copy(left(&p.concl))?;
    Ok(Some(Sequent { hyps, concl }))
}

/// From `G : a & b` to `G : b`.
pub fn and_right(p: &Sequent) -> Result<Option<Sequent>, NoMemory>
    ensures { IfOk result (λ o. o ≡ and_right_of p.now) }
{
    if !is_conjunction(&p.concl) {
        return Ok(None);
    }
    let hyps = p.hyps.again()?;
    let concl = copy(right(&p.concl))?;
    Ok(Some(Sequent { hyps, concl }))
}

/// From `G : a` to `G : a | t`.
pub fn or_left(alloc: Global, sig: &Sig, t: &Term, p: &Sequent) -> Result<Option<Sequent>, NoMemory>
    ensures { IfOk result (λ o. o ≡ or_left_of sig.now t.now p.now) }
{
    if !is_formula(alloc, sig, t)? {
        return Ok(None);
    }
    let hyps = p.hyps.again()?;
    let concl = disjunction(alloc, &p.concl, t)?;
    Ok(Some(Sequent { hyps, concl }))
}

/// From `G : b` to `G : t | b`.
pub fn or_right(
    alloc: Global,
    sig: &Sig,
    t: &Term,
    p: &Sequent,
) -> Result<Option<Sequent>, NoMemory>
    ensures { IfOk result (λ o. o ≡ or_right_of sig.now t.now p.now) }
{
    if !is_formula(alloc, sig, t)? {
        return Ok(None);
    }
    let hyps = p.hyps.again()?;
    let concl = disjunction(alloc, t, &p.concl)?;
    Ok(Some(Sequent { hyps, concl }))
}

/// `G + (D - a) + (E - b)`
fn joined(alloc: Global, p: &Sequent, l: &Sequent, r: &Sequent) -> Result<Hyps, NoMemory>
    ensures { IfOk result (λ s. s ≡ set.union (set.union p.now.hyps (set.remove l.now.hyps (left_of p.now.concl))) (set.remove r.now.hyps (right_of p.now.concl))) }
{
    let of_left = l.hyps.without(alloc, left(&p.concl))?;
    let both = p.hyps.union(alloc, &of_left)?;
    let of_right = r.hyps.without(alloc, right(&p.concl))?;
    both.union(alloc, &of_right)
}

/// From `G : a | b`, `D : c` and `E : c` to `G + (D - a) + (E - b) : c`.
pub fn or_elim(
    alloc: Global,
    p: &Sequent,
    l: &Sequent,
    r: &Sequent,
) -> Result<Option<Sequent>, NoMemory>
    ensures { IfOk result (λ o. o ≡ or_elim_of p.now l.now r.now) }
{
    if !(is_disjunction(&p.concl) && tied(&l.concl, &r.concl)) {
        return Ok(None);
    }
    let hyps = joined(alloc, p, l, r)?;
    let concl = copy(&l.concl)?;
    Ok(Some(Sequent { hyps, concl }))
}

/// From `G : false` to `G - t : ~t`.
pub fn not_intro(
    alloc: Global,
    sig: &Sig,
    t: &Term,
    p: &Sequent,
) -> Result<Option<Sequent>, NoMemory>
    ensures { IfOk result (λ o. o ≡ not_intro_of sig.now t.now p.now) }
{
    if !(is_formula(alloc, sig, t)? && is_falsum(&p.concl)) {
        return Ok(None);
    }
    let hyps = p.hyps.without(alloc, t)?;
    let concl = negation(alloc, t)?;
    Ok(Some(Sequent { hyps, concl }))
}

/// From `G : ~a` and `D : a` to `G + D : false`.
pub fn not_elim(alloc: Global, p: &Sequent, q: &Sequent) -> Result<Option<Sequent>, NoMemory>
    ensures { IfOk result (λ o. o ≡ not_elim_of p.now q.now) }
{
    if !(is_negation(&p.concl) && tied(right(&p.concl), &q.concl)) {
        return Ok(None);
    }
    let hyps = p.hyps.union(alloc, &q.hyps)?;
    Ok(Some(Sequent {
        hyps,
        concl: Term::Con(Konst::False),
    }))
}

/// `{} : true`
pub fn true_intro(alloc: Global) -> Result<Option<Sequent>, NoMemory>
    ensures { IfOk result (λ o. o ≡ true_intro_of) }
{
    let hyps = Hyps::none(alloc)?;
    Ok(Some(Sequent {
        hyps,
        concl: Term::Con(Konst::True),
    }))
}

/// `G - ~t`
fn without_denial(alloc: Global, g: &Hyps, t: &Term) -> Result<Hyps, NoMemory>
    ensures { IfOk result (λ s. s ≡ set.remove g.now (neg t.now)) }
{
    g.without(alloc, &negation(alloc, t)?)
}

/// From `G : false` to `G - ~t : t`.
pub fn classical(
    alloc: Global,
    sig: &Sig,
    t: &Term,
    p: &Sequent,
) -> Result<Option<Sequent>, NoMemory>
    ensures { IfOk result (λ o. o ≡ classical_of sig.now t.now p.now) }
{
    if !(is_formula(alloc, sig, t)? && is_falsum(&p.concl)) {
        return Ok(None);
    }
    let hyps = without_denial(alloc, &p.hyps, t)?;
    Ok(Some(Sequent {
        hyps,
        concl: copy(t)?,
    }))
}
