ghost use Rattle.std.specs.Prelude.{◌≡◌, Some, None, if◌then◌else◌};
ghost use Rattle.hol_terms.specs.declared.term.Term.{Term, out-Term};
ghost use Rattle.hol_formulas.specs.Atoms.{sides_of_konst, sides_of_head, sides_of_function, sides};
ghost use Rattle.hol_formulas.specs.inner.Lent.{IsSides};

use hol_terms::{Konst, Term, Ty, same_ty};

/// The two sides of an equation.
#[derive(Clone, Copy)]
pub struct Sides<'a> {
    pub left: &'a Term,
    pub right: &'a Term,
}

/// Whether the constant is equality at another type than bool.
fn is_equality(k: &Konst) -> bool
    ensures { (s t : Term) → sides_of_konst k.now s t ≡ (if result then Some (s, t) else None) }
{
    match k {
        Konst::Eq(a) => !same_ty(a, &Ty::Base(0)),
        Konst::Named(_) => false,
        Konst::Aux(_) => false,
        Konst::True => false,
        Konst::False => false,
        Konst::Not => false,
        Konst::And => false,
        Konst::Or => false,
        Konst::Imp => false,
        Konst::All(_) => false,
        Konst::Ex(_) => false,
        Konst::Eps(_) => false,
    }
}

fn sides_with<'a>(head: &Term, s: &'a Term, t: &'a Term) -> Option<Sides<'a>>
    ensures { IsSides result (sides_of_head (out-Term head.now) s.now t.now) }
{
    match head {
        Term::Con(k) => {
            if is_equality(k) {
                Some(Sides { left: s, right: t })
            } else {
                None
            }
        }
        Term::Bound(_) => None,
        Term::Free(_, _) => None,
        Term::App(_, _) => None,
        Term::Lam(_, _) => None,
    }
}

fn sides_behind<'a>(function: &'a Term, t: &'a Term) -> Option<Sides<'a>>
    ensures { IsSides result (sides_of_function (out-Term function.now) t.now) }
{
    match function {
        Term::App(h, s) => sides_with(h.get(), s.get(), t),
        Term::Bound(_) => None,
        Term::Free(_, _) => None,
        Term::Con(_) => None,
        Term::Lam(_, _) => None,
    }
}

/// The sides of an equation at another type than bool; another term has none.
pub fn sides_of(t: &Term) -> Option<Sides<'_>>
    ensures { IsSides result (sides t.now) }
{
    match t {
        Term::App(f, x) => sides_behind(f.get(), x.get()),
        Term::Bound(_) => None,
        Term::Free(_, _) => None,
        Term::Con(_) => None,
        Term::Lam(_, _) => None,
    }
}
