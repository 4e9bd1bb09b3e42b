ghost use Rattle.std.specs.Prelude.{◌≡◌, ◌&&◌, IfOk, IsTrue};
ghost use Rattle.hol_terms.specs.Types.{bool_ty, function_ty};
ghost use Rattle.hol_terms.specs.Substitution.{is_closed};
ghost use Rattle.hyp_sets.specs.Order.{is_same};
ghost use Rattle.kernel_rules.specs.Connectives.{constant, apply, equal, lambda_over as lambda_over_of, left_of, right_of, head_ty as head_ty_of, is_equal, is_imp, applied_to as applied, contracted as contracted_of};
ghost use Rattle.kernel_rules.specs.Rules as rule;

use crate::Sequent;
use crate::concluding::{under_both, under_none, under_those};
use crate::connectives::{applied_to, contracted, equation, lambda_over};
use crate::given::own_type;
use crate::quantifiers::{is_applied, is_property};
use crate::shapes::{head_ty, is_equation, is_implication, is_redex, left, right};
use hol_terms::{Konst, Sig, Term, Ty, arrow, copy_ty, fits, has_no_aux};
use hyp_sets::tied;
use std::alloc::Global;
use text_kit::{NoMemory, Shared};

/// `{} : t = t`
pub fn refl(alloc: Global, sig: &Sig, t: &Term) -> Result<Option<Sequent>, NoMemory>
    ensures { IfOk result (λ q. q ≡ rule.refl_of sig.now t.now) }
{
    if !has_no_aux(t) {
        return Ok(None);
    }
    match own_type(alloc, sig, t)? {
        Some(ty) => under_none(alloc, equation(alloc, ty, t, t)?),
        None => Ok(None),
    }
}

/// From `G : s = t` and `D : f@s` to `G + D : f@t`.
pub fn subst(
    alloc: Global,
    sig: &Sig,
    f: &Term,
    p: &Sequent,
    q: &Sequent,
) -> Result<Option<Sequent>, NoMemory>
    requires { IsTrue (is_closed p.now.concl) }
    ensures { IfOk result (λ r. r ≡ rule.subst_of sig.now f.now p.now q.now) }
{
    if is_of_left(alloc, sig, f, &p.concl, &q.concl)? {
        under_both(alloc, p, q, applied_to(alloc, f, right(&p.concl))?)
    } else {
        Ok(None)
    }
}

/// Whether `e` is an equation, and `c` is `f@s` for its left side, of whose type `f` is a property.
fn is_of_left(alloc: Global, sig: &Sig, f: &Term, e: &Term, c: &Term) -> Result<bool, NoMemory>
    requires { IsTrue (is_closed e.now) }
    ensures { IfOk result (λ b. b ≡ ((is_equal e.now && rule.is_given sig.now f.now (function_ty (head_ty_of e.now) bool_ty)) && is_same c.now (applied f.now (left_of e.now)))) }
{
    if is_equation(e) && is_property(alloc, sig, f, head_ty(e)?)? {
        is_applied(alloc, f, left(e), c)
    } else {
        Ok(false)
    }
}

/// `{} : (\x. b) u = b[u]`
pub fn beta(alloc: Global, sig: &Sig, t: &Term) -> Result<Option<Sequent>, NoMemory>
    ensures { IfOk result (λ q. q ≡ rule.beta_of sig.now t.now) }
{
    if !(is_redex(t) && has_no_aux(t)) {
        return Ok(None);
    }
    match own_type(alloc, sig, t)? {
        Some(ty) => under_none(alloc, contraction(alloc, ty, t)?),
        None => Ok(None),
    }
}

/// The equation between a term and its contracted form.
fn contraction(alloc: Global, ty: Ty, t: &Term) -> Result<Term, NoMemory>
    requires { IsTrue (is_closed t.now) }
    ensures { IfOk result (λ e. e ≡ equal ty t.now (contracted_of t.now)) }
{
    let short = contracted(alloc, t)?;
    equation(alloc, ty, t, &short)
}

/// From `G : s = t` to `G : (\x. s) = (\x. t)` for a variable `x` that isn't in `G`.
pub fn abs(
    alloc: Global,
    sig: &Sig,
    n: u64,
    ty: &Ty,
    p: &Sequent,
) -> Result<Option<Sequent>, NoMemory>
    requires { IsTrue (is_closed p.now.concl) }
    ensures { IfOk result (λ q. q ≡ rule.abs_of sig.now n ty.now p.now) }
{
    if is_equation(&p.concl) && fits(sig.types, ty) && p.hyps.lacks(n, ty) {
        under_those(p, functions_equal(alloc, n, ty, &p.concl)?)
    } else {
        Ok(None)
    }
}

/// `(\x. s) = (\x. t)` of `s = t`
fn functions_equal(alloc: Global, n: u64, ty: &Ty, e: &Term) -> Result<Term, NoMemory>
    requires { IsTrue (is_closed e.now) }
    ensures { IfOk result (λ r. r ≡ equal (function_ty ty.now (head_ty_of e.now)) (lambda_over_of n ty.now (left_of e.now)) (lambda_over_of n ty.now (right_of e.now))) }
{
    let half = Shared::new(alloc, functions_half(alloc, n, ty, e)?)?;
    let side = Shared::new(alloc, lambda_over(alloc, n, ty, right(e))?)?;
    Ok(Term::App(half, side))
}

/// Equality of functions, with `\x. s` of `s = t` as the left side.
fn functions_half(alloc: Global, n: u64, ty: &Ty, e: &Term) -> Result<Term, NoMemory>
    requires { IsTrue (is_closed e.now) }
    ensures { IfOk result (λ r. r ≡ apply (constant (Konst.Eq (function_ty ty.now (head_ty_of e.now)))) (lambda_over_of n ty.now (left_of e.now))) }
{
    let own = arrow(alloc, copy_ty(ty)?, head_ty(e)?)?;
    let head = Shared::new(alloc, Term::Con(Konst::Eq(own)))?;
    let side = Shared::new(alloc, lambda_over(alloc, n, ty, left(e))?)?;
    Ok(Term::App(head, side))
}

/// From `G : a ==> b` and `D : b ==> a` to `G + D : a = b`.
pub fn iff(alloc: Global, p: &Sequent, q: &Sequent) -> Result<Option<Sequent>, NoMemory>
    ensures { IfOk result (λ r. r ≡ rule.iff_of p.now q.now) }
{
    if are_converse(&p.concl, &q.concl) {
        under_both(
            alloc,
            p,
            q,
            equation(alloc, Ty::Base(0), left(&p.concl), right(&p.concl))?,
        )
    } else {
        Ok(None)
    }
}

/// Whether the terms are `a ==> b` and `b ==> a`.
fn are_converse(s: &Term, t: &Term) -> bool
    ensures { result ≡ (((is_imp s.now && is_imp t.now) && is_same (left_of s.now) (right_of t.now)) && is_same (right_of s.now) (left_of t.now)) }
{
    is_implication(s) && is_implication(t) && tied(left(s), right(t)) && tied(right(s), left(t))
}
