use crate::{Formula, read, sides_of};
use hol_terms::{Konst, Term, Ty, same};
use std::alloc::Global;
use std::test::Fail;
use text_kit::{NoMemory, Shared};

fn apply(alloc: Global, f: Term, x: Term) -> Result<Term, NoMemory> {
    let arg = Shared::new(alloc, x)?;
    Ok(Term::App(Shared::new(alloc, f)?, arg))
}

fn named(k: u32) -> Term {
    Term::Con(Konst::Named(k))
}

/// `a0 = a1`, of this type
fn equation(alloc: Global, ty: u32) -> Result<Term, NoMemory> {
    let half = apply(alloc, Term::Con(Konst::Eq(Ty::Base(ty))), named(0))?;
    apply(alloc, half, named(1))
}

/// `~(a0 = a1)`, of nat
fn negation(alloc: Global) -> Result<Term, NoMemory> {
    let inner = equation(alloc, 1)?;
    apply(alloc, Term::Con(Konst::Not), inner)
}

fn is_atom(f: &Formula, t: &Term) -> bool {
    match f {
        Formula::Atom(u) => same(u, t),
        _ => false,
    }
}

fn negation_is_read(alloc: Global) -> Result<bool, NoMemory> {
    let inner = equation(alloc, 1)?;
    let f = read(alloc, &negation(alloc)?)?;
    match f.get() {
        Formula::Not(g) => Ok(is_atom(g.get(), &inner)),
        _ => Ok(false),
    }
}

/// Whether the equation of this type has its two sides.
fn has_sides(alloc: Global, ty: u32) -> Result<bool, NoMemory> {
    let t = equation(alloc, ty)?;
    match sides_of(&t) {
        Some(e) => Ok(same(e.left, &named(0)) && same(e.right, &named(1))),
        None => Ok(false),
    }
}

#[test]
fn terms_are_read(rt: HostRuntime) -> Result<(), Fail> {
    let read = negation_is_read(rt.alloc())?;
    let sides = has_sides(rt.alloc(), 1)?;
    let bool_sides = has_sides(rt.alloc(), 0)?;
    assert!(rt; read && sides && !bool_sides);
    Ok(())
}
