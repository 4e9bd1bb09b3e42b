ghost use Rattle.std.specs.Prelude.{◌≡◌, ℕ, ◌<◌};
ghost use Rattle.theory_terms.specs.Meanings.{depth};
ghost use Rattle.theory_print.specs.Shapes.{part_of, applied, constant_part};
ghost use Rattle.theory_print.specs.Views.{whole, seen, bind_whole, Below, sign_of as sign_of_konst};

use hol_terms::{Konst, Term, Ty};
use theory_syntax::{Op, Quant};

/// What a term is written as, by its outermost form.
#[derive(Clone, Copy)]
pub enum View<'a> {
    Variable(u64),
    Constant(u32),
    Truth(bool),
    Apply(&'a Term, &'a Term),
    Equals(&'a Term, &'a Term),
    Not(&'a Term),
    Join(Op, &'a Term, &'a Term),
    Bind(Quant, &'a Ty, &'a Term),
    /// It stands in no text.
    Unwritten,
}

/// What a constant wants beside it.
#[derive(Clone, Copy)]
enum Sign {
    /// It is written alone.
    Alone,
    Negation,
    Operator(Op),
    Equality,
    Quantifier(Quant),
    Unwritten,
}

fn sign_of(k: &Konst) -> Sign
    ensures { result ≡ sign_of_konst k.now }
{
    match k {
        Konst::Named(_) | Konst::True | Konst::False => Sign::Alone,
        Konst::Aux(_) => Sign::Unwritten,
        Konst::Not => Sign::Negation,
        Konst::And => Sign::Operator(Op::And),
        Konst::Or => Sign::Operator(Op::Or),
        Konst::Imp => Sign::Operator(Op::Imp),
        Konst::Eq(_) => Sign::Equality,
        Konst::All(_) => Sign::Quantifier(Quant::All),
        Konst::Ex(_) => Sign::Quantifier(Quant::Ex),
        Konst::Eps(_) => Sign::Quantifier(Quant::Eps),
    }
}

/// A quantifier on a term, which has to be a lambda.
fn quantified<'a>(q: Quant, x: &'a Term) -> View<'a>
    ensures shape { seen result ≡ bind_whole q (part_of x.now) }
    ensures below { (n : ℕ) → depth x.now < n → Below result n }
{
    match x {
        Term::Lam(ty, body) => View::Bind(q, ty, body.get()),
        Term::App(_, _) => View::Unwritten,
        Term::Con(_) => View::Unwritten,
        Term::Free(_, _) => View::Unwritten,
        Term::Bound(_) => View::Unwritten,
    }
}

/// A constant `f` with one argument.
fn constant_with<'a>(k: &Konst, f: &'a Term, x: &'a Term) -> View<'a>
    requires { part_of f.now ≡ constant_part k.now }
    ensures shape { seen result ≡ whole (applied (part_of f.now) (part_of x.now)) }
    ensures below { (n : ℕ) → depth f.now < n → depth x.now < n → Below result n }
{
    match sign_of(k) {
        Sign::Alone => View::Apply(f, x),
        Sign::Negation => View::Not(x),
        Sign::Quantifier(q) => quantified(q, x),
        Sign::Operator(_) => View::Unwritten,
        Sign::Equality => View::Unwritten,
        Sign::Unwritten => View::Unwritten,
    }
}

/// A constant with two arguments, where `f` is the constant with the first one.
fn constant_with_two<'a>(k: &Konst, f: &'a Term, a: &'a Term, b: &'a Term) -> View<'a>
    requires { part_of f.now ≡ applied (constant_part k.now) (part_of a.now) }
    ensures shape { seen result ≡ whole (applied (part_of f.now) (part_of b.now)) }
    ensures below { (n : ℕ) → depth f.now < n → depth a.now < n → depth b.now < n → Below result n }
{
    match sign_of(k) {
        Sign::Operator(op) => View::Join(op, a, b),
        Sign::Equality => View::Equals(a, b),
        Sign::Alone => View::Apply(f, b),
        Sign::Negation => View::Apply(f, b),
        Sign::Quantifier(_) => View::Apply(f, b),
        Sign::Unwritten => View::Apply(f, b),
    }
}

/// An application `f` with one argument more; `f` is `head` with the argument `a`.
fn application_with<'a>(head: &Term, f: &'a Term, a: &'a Term, b: &'a Term) -> View<'a>
    requires { part_of f.now ≡ applied (part_of head.now) (part_of a.now) }
    ensures shape { seen result ≡ whole (applied (part_of f.now) (part_of b.now)) }
    ensures below { (n : ℕ) → depth f.now < n → depth a.now < n → depth b.now < n → Below result n }
{
    match head {
        Term::Con(k) => constant_with_two(k, f, a, b),
        Term::App(_, _) => View::Apply(f, b),
        Term::Lam(_, _) => View::Apply(f, b),
        Term::Free(_, _) => View::Apply(f, b),
        Term::Bound(_) => View::Apply(f, b),
    }
}

fn application<'a>(f: &'a Term, x: &'a Term) -> View<'a>
    ensures shape { seen result ≡ whole (applied (part_of f.now) (part_of x.now)) }
    ensures below { (n : ℕ) → depth f.now < n → depth x.now < n → Below result n }
{
    match f {
        Term::Con(k) => constant_with(k, f, x),
        Term::App(head, a) => application_with(head.get(), f, a.get(), x),
        Term::Lam(_, _) => View::Apply(f, x),
        Term::Free(_, _) => View::Apply(f, x),
        Term::Bound(_) => View::Apply(f, x),
    }
}

fn constant<'a>(k: &Konst) -> View<'a>
    ensures shape { seen result ≡ whole (constant_part k.now) }
    ensures below { (n : ℕ) → Below result n }
{
    match k {
        Konst::Named(c) => View::Constant(*c),
        Konst::True => View::Truth(true),
        Konst::False => View::Truth(false),
        _ => View::Unwritten,
    }
}

/// The outermost form of a term, whose parts are less deep.
pub(crate) fn view_of(t: &Term) -> View<'_>
    ensures shape { seen result ≡ whole (part_of t.now) }
    ensures below { Below result (depth t.now) }
{
    match t {
        Term::Bound(i) => View::Variable(*i),
        Term::Free(_, _) => View::Unwritten,
        Term::Con(k) => constant(k),
        Term::App(f, x) => application(f.get(), x.get()),
        Term::Lam(ty, body) => View::Bind(Quant::Lambda, ty, body.get()),
    }
}
