ghost use Rattle.std.specs.Prelude.{◌≡◌, ◌↔◌};
ghost use Rattle.std.specs.declared.cmp.Ordering.{Ordering};
ghost use Rattle.hol_terms.specs.Order.{ty_cmp, konst_kind, konst_cmp, kind, term_cmp};

use crate::{Konst, Term, Ty};
use std::cmp::Ordering;

fn compare_ty(s: &Ty, t: &Ty) -> Ordering
    ensures { result ≡ ty_cmp s.now t.now }
{
    match (s, t) {
        (Ty::Base(a), Ty::Base(b)) => a.cmp(b),
        (Ty::Base(_), Ty::Arrow(_, _)) => Ordering::Less,
        (Ty::Arrow(_, _), Ty::Base(_)) => Ordering::Greater,
        (Ty::Arrow(a, b), Ty::Arrow(c, d)) => match compare_ty(a.get(), c.get()) {
            Ordering::Equal => compare_ty(b.get(), d.get()),
            differs => differs,
        },
    }
}

fn konst_rank(k: &Konst) -> u8
    ensures { result ≡ konst_kind k.now }
{
    match k {
        Konst::Named(_) => 0,
        Konst::Aux(_) => 1,
        Konst::True => 2,
        Konst::False => 3,
        Konst::Not => 4,
        Konst::And => 5,
        Konst::Or => 6,
        Konst::Imp => 7,
        Konst::Eq(_) => 8,
        Konst::All(_) => 9,
        Konst::Ex(_) => 10,
        Konst::Eps(_) => 11,
    }
}

fn compare_konst(s: &Konst, t: &Konst) -> Ordering
    ensures { result ≡ konst_cmp s.now t.now }
{
    match (s, t) {
        (Konst::Named(a), Konst::Named(b)) => a.cmp(b),
        (Konst::Aux(a), Konst::Aux(b)) => a.cmp(b),
        (Konst::Eq(a), Konst::Eq(b)) => compare_ty(a, b),
        (Konst::All(a), Konst::All(b)) => compare_ty(a, b),
        (Konst::Ex(a), Konst::Ex(b)) => compare_ty(a, b),
        (Konst::Eps(a), Konst::Eps(b)) => compare_ty(a, b),
        _ => konst_rank(s).cmp(&konst_rank(t)),
    }
}

fn rank(t: &Term) -> u8
    ensures { result ≡ kind t.now }
{
    match t {
        Term::Bound(_) => 0,
        Term::Free(_, _) => 1,
        Term::Con(_) => 2,
        Term::App(_, _) => 3,
        Term::Lam(_, _) => 4,
    }
}

#[tactic(auto, unfolding(crate::specs::Order::term_cmp))]
fn ordered(s: &Term, t: &Term) -> Ordering
    ensures { result ≡ term_cmp s.now t.now }
{
    match (s, t) {
        (Term::Bound(a), Term::Bound(b)) => a.cmp(b),
        (Term::Free(a, x), Term::Free(b, y)) => match a.cmp(b) {
            Ordering::Equal => compare_ty(x, y),
            differs => differs,
        },
        (Term::Con(a), Term::Con(b)) => compare_konst(a, b),
        (Term::App(a, x), Term::App(b, y)) => match ordered(a.get(), b.get()) {
            Ordering::Equal => ordered(x.get(), y.get()),
            differs => differs,
        },
        (Term::Lam(x, a), Term::Lam(y, b)) => match compare_ty(x, y) {
            Ordering::Equal => ordered(a.get(), b.get()),
            differs => differs,
        },
        _ => rank(s).cmp(&rank(t)),
    }
}

/// Orders terms: first by kind, then by their parts from left to right, as far as the first that differ. It takes
/// no memory.
pub fn compare(s: &Term, t: &Term) -> Ordering
    ensures order { result ≡ term_cmp s.now t.now }
    ensures same { (result ≡ Ordering.Equal) ↔ (s.now ≡ t.now) }
{
    ordered(s, t)
}
