use crate::tree::Tree;
use hol_terms::{Term, Ty, same_ty};

/// How often `Free(n, ty)` occurs in a term.
fn in_term(n: u64, ty: &Ty, t: &Term) -> u64 {
    match t {
        Term::Bound(_) => 0,
        Term::Free(m, a) => { if *m == n && same_ty(a, ty) { 1 } else { 0 } }
        Term::Con(_) => 0,
        Term::App(f, x) => in_term(n, ty, f.get()).saturating_add(in_term(n, ty, x.get())),
        Term::Lam(_, b) => in_term(n, ty, b.get()),
    }
}

/// How often `Free(n, ty)` occurs in the terms of a tree. No clause speaks of it: it guides bounds on work.
pub(crate) fn in_terms(n: u64, ty: &Ty, t: &Tree) -> u64 {
    match t {
        Tree::Leaf => 0,
        Tree::Fork(l, k, r, _) => in_terms(n, ty, l.get())
            .saturating_add(in_term(n, ty, &k.get().term))
            .saturating_add(in_terms(n, ty, r.get())),
    }
}
