ghost use Rattle.std.specs.Prelude.{◌≡◌, ◌&&◌, Some, IfOk, IsTrue};
ghost use Rattle.hol_terms.specs.Types.{bool_ty, function_ty};
ghost use Rattle.hol_terms.specs.Formulas.{aux_free};
ghost use Rattle.hol_terms.specs.Substitution.{is_closed, put_free as replaced, one_put};
ghost use Rattle.hyp_sets.specs.Order.{is_same};
ghost use Rattle.hyp_sets.specs.Sets.{image};
ghost use Rattle.kernel_rules.specs.Connectives.{all, some, chosen, lambda_over as lambda_over_of, right_of, head_ty as head_ty_of, is_all, is_some_of, applied_to as applied};
ghost use Rattle.kernel_rules.specs.Rules as rule;

use crate::Sequent;
use crate::concluding::under_those;
use crate::connectives::{applied_to, choice, existential, lambda_over};
use crate::given::{is_given, own_type};
use crate::shapes::{head_ty, is_existential, is_universal, right};
use hol_terms::{Konst, Sig, Term, Ty, arrow, copy_ty, fits, has_no_aux, put_free};
use hyp_sets::tied;
use std::alloc::Global;
use text_kit::{NoMemory, Shared};

/// From `G : c` to `G : !x. c` for a variable `x` that isn't in `G`.
pub fn all_intro(
    alloc: Global,
    sig: &Sig,
    n: u64,
    ty: &Ty,
    p: &Sequent,
) -> Result<Option<Sequent>, NoMemory>
    requires { IsTrue (is_closed p.now.concl) }
    ensures { IfOk result (λ q. q ≡ rule.all_intro_of sig.now n ty.now p.now) }
{
    if fits(sig.types, ty) && p.hyps.lacks(n, ty) {
        under_those(p, for_all(alloc, n, ty, &p.concl)?)
    } else {
        Ok(None)
    }
}

/// `!x. t`
fn for_all(alloc: Global, n: u64, ty: &Ty, t: &Term) -> Result<Term, NoMemory>
    requires { IsTrue (is_closed t.now) }
    ensures { IfOk result (λ r. r ≡ all ty.now (lambda_over_of n ty.now t.now)) }
{
    let head = Shared::new(alloc, Term::Con(Konst::All(copy_ty(ty)?)))?;
    let property = Shared::new(alloc, lambda_over(alloc, n, ty, t)?)?;
    Ok(Term::App(head, property))
}

/// From `G : All f` to `G : f@t`, `t` of the type of the bound variable.
pub fn all_elim(
    alloc: Global,
    sig: &Sig,
    t: &Term,
    p: &Sequent,
) -> Result<Option<Sequent>, NoMemory>
    ensures { IfOk result (λ q. q ≡ rule.all_elim_of sig.now t.now p.now) }
{
    if is_of_all(alloc, sig, t, &p.concl)? {
        under_those(p, applied_to(alloc, right(&p.concl), t)?)
    } else {
        Ok(None)
    }
}

/// Whether `c` says that every value of the type of `t` has a property.
fn is_of_all(alloc: Global, sig: &Sig, t: &Term, c: &Term) -> Result<bool, NoMemory>
    ensures { IfOk result (λ b. b ≡ (is_all c.now && rule.is_given sig.now t.now (head_ty_of c.now))) }
{
    if is_universal(c) {
        let ty = head_ty(c)?;
        is_given(alloc, sig, t, &ty)
    } else {
        Ok(false)
    }
}

/// From `G : f@t` to `G : Ex f`.
pub fn ex_intro(
    alloc: Global,
    sig: &Sig,
    f: &Term,
    t: &Term,
    p: &Sequent,
) -> Result<Option<Sequent>, NoMemory>
    ensures { IfOk result (λ q. q ≡ rule.ex_intro_of sig.now f.now t.now p.now) }
{
    match own_type(alloc, sig, t)? {
        Some(ty) => by_witness(alloc, sig, f, t, ty, p),
        None => Ok(None),
    }
}

fn by_witness(
    alloc: Global,
    sig: &Sig,
    f: &Term,
    t: &Term,
    ty: Ty,
    p: &Sequent,
) -> Result<Option<Sequent>, NoMemory>
    requires { IsTrue (is_closed t.now) }
    ensures { IfOk result (λ q. q ≡ rule.when ((rule.is_given sig.now f.now (function_ty ty bool_ty) && aux_free t.now) && is_same p.now.concl (applied f.now t.now)) (rule.seq p.now.hyps (some ty f.now))) }
{
    if is_witness(alloc, sig, f, t, &ty, &p.concl)? {
        under_those(p, existential(alloc, ty, f)?)
    } else {
        Ok(None)
    }
}

/// Whether `c` is `f@t`, for a property `f` of values of this type.
fn is_witness(
    alloc: Global,
    sig: &Sig,
    f: &Term,
    t: &Term,
    ty: &Ty,
    c: &Term,
) -> Result<bool, NoMemory>
    requires { IsTrue (is_closed t.now) }
    ensures { IfOk result (λ b. b ≡ ((rule.is_given sig.now f.now (function_ty ty.now bool_ty) && aux_free t.now) && is_same c.now (applied f.now t.now))) }
{
    if has_no_aux(t) && is_property(alloc, sig, f, copy_ty(ty)?)? {
        is_applied(alloc, f, t, c)
    } else {
        Ok(false)
    }
}

/// Whether `f` may be given as a function from the type to bool.
pub fn is_property(alloc: Global, sig: &Sig, f: &Term, ty: Ty) -> Result<bool, NoMemory>
    ensures { IfOk result (λ b. b ≡ rule.is_given sig.now f.now (function_ty ty bool_ty)) }
{
    let own = arrow(alloc, ty, Ty::Base(0))?;
    is_given(alloc, sig, f, &own)
}

/// Whether `c` is `f@t`.
pub fn is_applied(alloc: Global, f: &Term, t: &Term, c: &Term) -> Result<bool, NoMemory>
    requires { IsTrue (is_closed t.now) }
    ensures { IfOk result (λ b. b ≡ is_same c.now (applied f.now t.now)) }
{
    let value = applied_to(alloc, f, t)?;
    Ok(tied(c, &value))
}

/// From `G : Ex f` to `G : f@(Eps f)`.
pub fn choose(alloc: Global, p: &Sequent) -> Result<Option<Sequent>, NoMemory>
    requires { IsTrue (is_closed p.now.concl) }
    ensures { IfOk result (λ q. q ≡ rule.choose_of p.now) }
{
    if is_existential(&p.concl) {
        under_those(p, at_choice(alloc, head_ty(&p.concl)?, right(&p.concl))?)
    } else {
        Ok(None)
    }
}

/// `f@(Eps f)`
fn at_choice(alloc: Global, ty: Ty, f: &Term) -> Result<Term, NoMemory>
    requires { IsTrue (is_closed f.now) }
    ensures { IfOk result (λ t. t ≡ applied f.now (chosen ty f.now)) }
{
    let example = choice(alloc, ty, f)?;
    applied_to(alloc, f, &example)
}

/// From `G : c` to the same with `t` for the variable in `G` and `c`.
pub fn inst(
    alloc: Global,
    sig: &Sig,
    n: u64,
    ty: &Ty,
    t: &Term,
    p: &Sequent,
) -> Result<Option<Sequent>, NoMemory>
    ensures { IfOk result (λ q. q ≡ rule.inst_of sig.now n ty.now t.now p.now) }
{
    if fits(sig.types, ty) && is_given(alloc, sig, t, ty)? {
        instance(alloc, n, ty, t, p)
    } else {
        Ok(None)
    }
}

fn instance(
    alloc: Global,
    n: u64,
    ty: &Ty,
    t: &Term,
    p: &Sequent,
) -> Result<Option<Sequent>, NoMemory>
    ensures { IfOk result (λ q. q ≡ Some (rule.seq (image (replaced (one_put n ty.now t.now)) p.now.hyps) (replaced (one_put n ty.now t.now) p.now.concl))) }
{
    let hyps = p.hyps.replaced(alloc, n, ty, t)?;
    let concl = put_free(alloc, &p.concl, n, ty, t)?;
    Ok(Some(Sequent { hyps, concl }))
}
