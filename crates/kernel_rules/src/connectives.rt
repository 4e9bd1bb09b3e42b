ghost use Rattle.std.specs.Prelude.{◌≡◌, IfOk, IsTrue};
ghost use Rattle.hol_terms.specs.Substitution.{is_closed};
ghost use Rattle.kernel_rules.specs.Connectives.{constant, apply as apply_of, lambda as lambda_of, lambda_over as lambda_over_of, neg, conj, disj, imp, equal, all, some, chosen, applied_to as applied, contracted as contracted_of, right_of};

use crate::shapes::{body, function, is_lambda, right};
use hol_terms::{Konst, Term, Ty, abstract_over, copy, copy_ty, instantiate};
use std::alloc::Global;
use text_kit::{NoMemory, Shared};

/// A function applied to a term.
pub fn apply(alloc: Global, f: Term, x: Term) -> Result<Term, NoMemory>
    ensures { IfOk result (λ t. t ≡ apply_of f x) }
{
    let head = Shared::new(alloc, f)?;
    let arg = Shared::new(alloc, x)?;
    Ok(Term::App(head, arg))
}

fn unary(alloc: Global, k: Konst, a: &Term) -> Result<Term, NoMemory>
    ensures { IfOk result (λ t. t ≡ apply_of (constant k) a.now) }
{
    let head = Shared::new(alloc, Term::Con(k))?;
    let arg = Shared::new(alloc, copy(a)?)?;
    Ok(Term::App(head, arg))
}

fn binary(alloc: Global, k: Konst, a: &Term, b: &Term) -> Result<Term, NoMemory>
    ensures { IfOk result (λ t. t ≡ apply_of (apply_of (constant k) a.now) b.now) }
{
    let half = Shared::new(alloc, unary(alloc, k, a)?)?;
    let right = Shared::new(alloc, copy(b)?)?;
    Ok(Term::App(half, right))
}

/// `~a`
pub fn negation(alloc: Global, a: &Term) -> Result<Term, NoMemory>
    ensures { IfOk result (λ t. t ≡ neg a.now) }
{
    unary(alloc, Konst::Not, a)
}

/// `a & b`
pub fn conjunction(alloc: Global, a: &Term, b: &Term) -> Result<Term, NoMemory>
    ensures { IfOk result (λ t. t ≡ conj a.now b.now) }
{
    binary(alloc, Konst::And, a, b)
}

/// `a | b`
pub fn disjunction(alloc: Global, a: &Term, b: &Term) -> Result<Term, NoMemory>
    ensures { IfOk result (λ t. t ≡ disj a.now b.now) }
{
    binary(alloc, Konst::Or, a, b)
}

/// `a ==> b`
pub fn implication(alloc: Global, a: &Term, b: &Term) -> Result<Term, NoMemory>
    ensures { IfOk result (λ t. t ≡ imp a.now b.now) }
{
    binary(alloc, Konst::Imp, a, b)
}

/// `s = t`, the sides of this type.
pub fn equation(alloc: Global, ty: Ty, s: &Term, t: &Term) -> Result<Term, NoMemory>
    ensures { IfOk result (λ e. e ≡ equal ty s.now t.now) }
{
    binary(alloc, Konst::Eq(ty), s, t)
}

/// Every value of the type has the property.
pub fn universal(alloc: Global, ty: Ty, f: &Term) -> Result<Term, NoMemory>
    ensures { IfOk result (λ t. t ≡ all ty f.now) }
{
    unary(alloc, Konst::All(ty), f)
}

/// Some value of the type has the property.
pub fn existential(alloc: Global, ty: Ty, f: &Term) -> Result<Term, NoMemory>
    ensures { IfOk result (λ t. t ≡ some ty f.now) }
{
    unary(alloc, Konst::Ex(ty), f)
}

/// A value that has the property, where there is one.
pub fn choice(alloc: Global, ty: Ty, f: &Term) -> Result<Term, NoMemory>
    ensures { IfOk result (λ t. t ≡ chosen ty f.now) }
{
    unary(alloc, Konst::Eps(ty), f)
}

/// A lambda by the type of its variable and its body.
pub fn lambda(alloc: Global, ty: Ty, body: Term) -> Result<Term, NoMemory>
    ensures { IfOk result (λ t. t ≡ lambda_of ty body) }
{
    Ok(Term::Lam(ty, Shared::new(alloc, body)?))
}

/// The lambda over a variable that may occur in the term, which has no loose index.
pub fn lambda_over(alloc: Global, n: u64, ty: &Ty, t: &Term) -> Result<Term, NoMemory>
    requires { IsTrue (is_closed t.now) }
    ensures { IfOk result (λ r. r ≡ lambda_over_of n ty.now t.now) }
{
    let body = abstract_over(alloc, t, n, ty)?;
    lambda(alloc, copy_ty(ty)?, body)
}

/// `f@t`: the body with `t`, which has no loose index, for the bound variable where `f` is a lambda, else `f`
/// applied to `t`.
#[tactic(auto, unfolding(crate::specs::Connectives::applied_to))]
pub fn applied_to(alloc: Global, f: &Term, t: &Term) -> Result<Term, NoMemory>
    requires { IsTrue (is_closed t.now) }
    ensures { IfOk result (λ r. r ≡ applied f.now t.now) }
{
    if is_lambda(f) {
        instantiate(alloc, body(f), t)
    } else {
        let head = copy(f)?;
        apply(alloc, head, copy(t)?)
    }
}

/// A lambda's application, with the argument, which has no loose index, put into the body.
pub fn contracted(alloc: Global, t: &Term) -> Result<Term, NoMemory>
    requires { IsTrue (is_closed (right_of t.now)) }
    ensures { IfOk result (λ r. r ≡ contracted_of t.now) }
{
    applied_to(alloc, function(t), right(t))
}
