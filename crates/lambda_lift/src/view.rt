ghost use Rattle.std.specs.Prelude.{◌≡◌, ℕ, ◌<◌};
ghost use Rattle.hol_terms.specs.declared.sig.Sig.{Sig};
ghost use Rattle.lambda_lift.specs.Walks.{Walk, reading, both, apply, app_formula, app_head, konst_head, quantified as quantified_walk};
ghost use Rattle.lambda_lift.specs.Views.{seen, sign_head, height, Below};

use hol_terms::{Konst, Term, Ty, same_ty};

/// The outermost form of a formula.
#[derive(Clone, Copy)]
pub enum View<'a> {
    Negation(&'a Term),
    /// `&`, `|`, `==>`, or `=` at bool, with both sides
    Junction(&'a Konst, &'a Term, &'a Term),
    /// a quantifier on a lambda: the lambda's type and body
    Quantifier(&'a Konst, &'a Ty, &'a Term),
    Atom,
}

/// What a constant is at the head of an application.
#[derive(Clone, Copy)]
enum Sign {
    Negation,
    Junction,
    Quantifier,
    Plain,
}

fn sign_of(k: &Konst) -> Sign
    ensures { konst_head k.now ≡ sign_head result k.now }
{
    match k {
        Konst::Not => Sign::Negation,
        Konst::And => Sign::Junction,
        Konst::Or => Sign::Junction,
        Konst::Imp => Sign::Junction,
        Konst::Eq(a) => {
            if same_ty(a, &Ty::Base(0)) {
                Sign::Junction
            } else {
                Sign::Plain
            }
        }
        Konst::All(_) => Sign::Quantifier,
        Konst::Ex(_) => Sign::Quantifier,
        Konst::Eps(_) => Sign::Plain,
        Konst::Named(_) => Sign::Plain,
        Konst::Aux(_) => Sign::Plain,
        Konst::True => Sign::Plain,
        Konst::False => Sign::Plain,
    }
}

/// A quantifier on a term, which has to be a lambda.
fn quantified<'a>(k: &'a Konst, x: &'a Term) -> View<'a>
    ensures shape { (sig : Sig) (atom : Walk) → quantified_walk k.now (reading sig x.now).head atom ≡ seen sig atom result }
    ensures below { (n : ℕ) → height x.now < n → Below result n }
{
    match x {
        Term::Lam(ty, body) => View::Quantifier(k, ty, body.get()),
        Term::App(_, _) => View::Atom,
        Term::Con(_) => View::Atom,
        Term::Free(_, _) => View::Atom,
        Term::Bound(_) => View::Atom,
    }
}

/// A constant with one argument.
fn constant_with<'a>(k: &'a Konst, x: &'a Term) -> View<'a>
    ensures shape { (sig : Sig) (atom : Walk) → app_formula (konst_head k.now) (reading sig x.now) atom ≡ seen sig atom result }
    ensures below { (n : ℕ) → height x.now < n → Below result n }
{
    match sign_of(k) {
        Sign::Negation => View::Negation(x),
        Sign::Quantifier => quantified(k, x),
        Sign::Junction => View::Atom,
        Sign::Plain => View::Atom,
    }
}

/// A constant with two arguments.
fn constant_with_two<'a>(k: &'a Konst, a: &'a Term, b: &'a Term) -> View<'a>
    ensures shape { (sig : Sig) (atom : Walk) → app_formula (app_head (konst_head k.now) (reading sig a.now).formula) (reading sig b.now) atom ≡ seen sig atom result }
    ensures below { (n : ℕ) → height a.now < n → height b.now < n → Below result n }
{
    match sign_of(k) {
        Sign::Junction => View::Junction(k, a, b),
        Sign::Negation => View::Atom,
        Sign::Quantifier => View::Atom,
        Sign::Plain => View::Atom,
    }
}

/// The application of `head` with the argument `a` to `b`.
fn application_with<'a>(head: &'a Term, a: &'a Term, b: &'a Term) -> View<'a>
    ensures shape { (sig : Sig) (atom : Walk) → app_formula (app_head (reading sig head.now).head (reading sig a.now).formula) (reading sig b.now) atom ≡ seen sig atom result }
    ensures below { (n : ℕ) → height a.now < n → height b.now < n → Below result n }
{
    match head {
        Term::Con(k) => constant_with_two(k, a, b),
        Term::App(_, _) => View::Atom,
        Term::Lam(_, _) => View::Atom,
        Term::Free(_, _) => View::Atom,
        Term::Bound(_) => View::Atom,
    }
}

fn application<'a>(f: &'a Term, x: &'a Term) -> View<'a>
    ensures shape { (sig : Sig) (atom : Walk) → app_formula (reading sig f.now).head (reading sig x.now) atom ≡ seen sig atom result }
    ensures below { (n : ℕ) → height f.now < n → height x.now < n → Below result n }
{
    match f {
        Term::Con(k) => constant_with(k, x),
        Term::App(head, a) => application_with(head.get(), a.get(), x),
        Term::Lam(_, _) => View::Atom,
        Term::Free(_, _) => View::Atom,
        Term::Bound(_) => View::Atom,
    }
}

/// The outermost form of a formula, whose parts are less high.
pub fn view_of(t: &Term) -> View<'_>
    ensures shape { (sig : Sig) → (reading sig t.now).formula ≡ seen sig (reading sig t.now).atom result }
    ensures below { Below result (height t.now) }
{
    match t {
        Term::App(f, x) => application(f.get(), x.get()),
        Term::Lam(_, _) => View::Atom,
        Term::Con(_) => View::Atom,
        Term::Free(_, _) => View::Atom,
        Term::Bound(_) => View::Atom,
    }
}
