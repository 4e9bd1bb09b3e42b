ghost use Rattle.std.specs.Prelude.{◌≡◌, IfOk};
ghost use Rattle.kernel_rules.specs.Connectives.{left_of, right_of, function_of, body_of, head_ty as head_ty_of, is_conj, is_disj, is_imp, is_equal, is_neg, is_all, is_some_of, is_falsum as falsum_test, is_lambda as lambda_test, is_redex as redex_test};

use hol_terms::{Konst, Term, Ty, copy_ty};
use text_kit::NoMemory;

/// The right side of an operator, or the argument of any application; the term itself where there is none.
#[tactic(auto, unfolding(crate::specs::Connectives::right_of))]
pub fn right(t: &Term) -> &Term
    ensures { result.now ≡ right_of t.now }
{
    match t {
        Term::App(_, x) => x.get(),
        _ => t,
    }
}

/// The function of an application; the term itself where there is none.
#[tactic(auto, unfolding(crate::specs::Connectives::function_of))]
pub fn function(t: &Term) -> &Term
    ensures { result.now ≡ function_of t.now }
{
    match t {
        Term::App(f, _) => f.get(),
        _ => t,
    }
}

/// The left side of an operator; the term itself where there is none.
#[tactic(auto, unfolding(crate::specs::Connectives::left_of))]
pub fn left(t: &Term) -> &Term
    ensures { result.now ≡ left_of t.now }
{
    match t {
        Term::App(f, _) => match f.get() {
            Term::App(_, x) => x.get(),
            _ => t,
        },
        _ => t,
    }
}

/// The body of a lambda; the term itself where there is none.
#[tactic(auto, unfolding(crate::specs::Connectives::body_of))]
pub fn body(t: &Term) -> &Term
    ensures { result.now ≡ body_of t.now }
{
    match t {
        Term::Lam(_, b) => b.get(),
        _ => t,
    }
}

/// Whether the term is `a & b`.
#[tactic(auto, unfolding(crate::specs::Connectives::is_conj))]
pub fn is_conjunction(t: &Term) -> bool
    ensures { result ≡ is_conj t.now }
{
    match t {
        Term::App(f, _) => match f.get() {
            Term::App(k, _) => matches!(k.get(), Term::Con(Konst::And)),
            _ => false,
        },
        _ => false,
    }
}

/// Whether the term is `a | b`.
#[tactic(auto, unfolding(crate::specs::Connectives::is_disj))]
pub fn is_disjunction(t: &Term) -> bool
    ensures { result ≡ is_disj t.now }
{
    match t {
        Term::App(f, _) => match f.get() {
            Term::App(k, _) => matches!(k.get(), Term::Con(Konst::Or)),
            _ => false,
        },
        _ => false,
    }
}

/// Whether the term is `a ==> b`.
#[tactic(auto, unfolding(crate::specs::Connectives::is_imp))]
pub fn is_implication(t: &Term) -> bool
    ensures { result ≡ is_imp t.now }
{
    match t {
        Term::App(f, _) => match f.get() {
            Term::App(k, _) => matches!(k.get(), Term::Con(Konst::Imp)),
            _ => false,
        },
        _ => false,
    }
}

/// Whether the term is `s = t`.
#[tactic(auto, unfolding(crate::specs::Connectives::is_equal))]
pub fn is_equation(t: &Term) -> bool
    ensures { result ≡ is_equal t.now }
{
    match t {
        Term::App(f, _) => match f.get() {
            Term::App(k, _) => matches!(k.get(), Term::Con(Konst::Eq(_))),
            _ => false,
        },
        _ => false,
    }
}

/// Whether the term is `~a`.
#[tactic(auto, unfolding(crate::specs::Connectives::is_neg))]
pub fn is_negation(t: &Term) -> bool
    ensures { result ≡ is_neg t.now }
{
    match t {
        Term::App(k, _) => matches!(k.get(), Term::Con(Konst::Not)),
        _ => false,
    }
}

/// Whether the term says that every value of some type has a property.
#[tactic(auto, unfolding(crate::specs::Connectives::is_all))]
pub fn is_universal(t: &Term) -> bool
    ensures { result ≡ is_all t.now }
{
    match t {
        Term::App(k, _) => matches!(k.get(), Term::Con(Konst::All(_))),
        _ => false,
    }
}

/// Whether the term says that some value of some type has a property.
#[tactic(auto, unfolding(crate::specs::Connectives::is_some_of))]
pub fn is_existential(t: &Term) -> bool
    ensures { result ≡ is_some_of t.now }
{
    match t {
        Term::App(k, _) => matches!(k.get(), Term::Con(Konst::Ex(_))),
        _ => false,
    }
}

/// Whether the term is `false`.
#[tactic(auto, unfolding(crate::specs::Connectives::is_falsum))]
pub fn is_falsum(t: &Term) -> bool
    ensures { result ≡ falsum_test t.now }
{
    matches!(t, Term::Con(Konst::False))
}

/// Whether the term is a lambda.
#[tactic(auto, unfolding(crate::specs::Connectives::is_lambda))]
pub fn is_lambda(t: &Term) -> bool
    ensures { result ≡ lambda_test t.now }
{
    matches!(t, Term::Lam(_, _))
}

/// Whether the term is a lambda applied to a term.
#[tactic(auto, unfolding(crate::specs::Connectives::is_redex))]
pub fn is_redex(t: &Term) -> bool
    ensures { result ≡ redex_test t.now }
{
    match t {
        Term::App(f, _) => matches!(f.get(), Term::Lam(_, _)),
        _ => false,
    }
}

/// The type that the logical constant at the head carries: that of the sides of an equation, or of the bound
/// variable; bool where it carries none.
#[tactic(auto, unfolding(crate::specs::Connectives::head_ty))]
pub fn head_ty(t: &Term) -> Result<Ty, NoMemory>
    ensures { IfOk result (λ a. a ≡ head_ty_of t.now) }
{
    match t {
        Term::App(f, _) => head_ty(f.get()),
        Term::Con(Konst::Eq(a)) => copy_ty(a),
        Term::Con(Konst::All(a)) => copy_ty(a),
        Term::Con(Konst::Ex(a)) => copy_ty(a),
        Term::Con(Konst::Eps(a)) => copy_ty(a),
        _ => Ok(Ty::Base(0)),
    }
}
