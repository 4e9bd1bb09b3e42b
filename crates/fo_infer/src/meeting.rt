ghost use Rattle.std.specs.Prelude.{◌≡◌, ℕ, true, false, map, Some, slice_get};
ghost use Rattle.fo_terms.specs.declared.term.FoTerm.{FoTerm};
ghost use Rattle.fo_terms.specs.declared.atom.Atom.TheVariants.{Holds, Eq};
ghost use Rattle.fo_terms.specs.declared.literal.Literal.{Literal};
ghost use Rattle.fo_terms.specs.Substitution.{put};
ghost use Rattle.fo_infer.specs.inner.Meeting.{Meet, MeetsNone, NoneMeets, LacksEquations};

use crate::reading::{held, sides};
use fo_terms::{Clause, FoTerm, Literal};

/// Whether substitutions, one for each, can make two terms the same, as far as their symbols tell.
#[cycle(meeting)]
pub fn may_meet(s: &FoTerm, t: &FoTerm) -> bool
    ensures { Meet s.now t.now → result ≡ true }
{
    match (s, t) {
        (FoTerm::Fun(f, xs), FoTerm::Fun(g, ys)) => {
            if *f != *g {
                return false;
            }
            all_may_meet(xs.as_slice(), ys.as_slice())
        }
        (FoTerm::Var(_), FoTerm::Fun(_, _)) => true,
        (FoTerm::Fun(_, _), FoTerm::Var(_)) => true,
        (FoTerm::Var(_), FoTerm::Var(_)) => true,
    }
}

#[cycle(meeting)]
fn all_may_meet(ss: &[FoTerm], ts: &[FoTerm]) -> bool
    ensures { (v w : ℕ → FoTerm) → map (put v) ss.now ≡ map (put w) ts.now → result ≡ true }
{
    if ss.len() != ts.len() {
        return false;
    }
    for i in 0..ss.len() {
        if !may_meet(&ss[i], &ts[i]) {
            return false;
        }
    }
    true
}

/// Whether the term of a positive literal may meet that of this literal, if it is a negative one.
fn meets_literal(s: &FoTerm, l: &Literal) -> bool
    ensures { result ≡ false → MeetsNone s.now l.now }
{
    match held(l, false) {
        None => false,
        Some(t) => may_meet(s, t),
    }
}

fn meets_some(s: &FoTerm, q: &[Literal]) -> bool
    ensures { result ≡ false → (j : ℕ) (m : Literal) → slice_get q.now j ≡ Some m → MeetsNone s.now m }
{
    for m in q {
        if meets_literal(&*s, m) {
            return true;
        }
    }
    false
}

/// Whether the literal is a positive one that isn't an equation and may meet a negative one of these.
fn may_resolve(l: &Literal, q: &[Literal]) -> bool
    ensures { result ≡ false → (j : ℕ) (m : Literal) → slice_get q.now j ≡ Some m → NoneMeets l.now m }
{
    match held(l, true) {
        None => false,
        Some(s) => meets_some(s, q),
    }
}

fn is_equation(l: &Literal) -> bool
    ensures { result ≡ false → LacksEquations l.now }
{
    match sides(l, true) {
        None => false,
        Some(_) => true,
    }
}

/// Whether two clauses may have inferences: a positive literal of the one may meet a negative one of the other, or it is an equation.
pub fn may_infer(p: &Clause, q: &Clause) -> bool
    ensures { result ≡ false → (i : ℕ) (l : Literal) → slice_get p.now.literals i ≡ Some l → LacksEquations l × ((j : ℕ) (m : Literal) → slice_get q.now.literals j ≡ Some m → NoneMeets l m) }
{
    for l in p.literals.as_slice() {
        if is_equation(l) {
            return true;
        }
        if may_resolve(l, q.literals.as_slice()) {
            return true;
        }
    }
    false
}
