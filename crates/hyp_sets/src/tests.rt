use crate::Hyps;
use hol_terms::{Konst, Term, Ty};
use std::alloc::Global;
use std::test::Fail;
use text_kit::NoMemory;

fn variable() -> Term {
    Term::Free(3, Ty::Base(0))
}

/// `{x, true}`
fn pair(alloc: Global) -> Result<Hyps, NoMemory> {
    Hyps::one(alloc, variable())?.union(alloc, &Hyps::one(alloc, Term::Con(Konst::True))?)
}

#[test]
fn union_holds_both(rt: HostRuntime) -> Result<(), Fail> {
    let both = pair(rt.alloc())?;
    assert!(rt; both.holds(&variable()));
    assert!(rt; both.holds(&Term::Con(Konst::True)));
    Ok(())
}

#[test]
fn without_leaves_the_others(rt: HostRuntime) -> Result<(), Fail> {
    let rest = pair(rt.alloc())?.without(rt.alloc(), &Term::Con(Konst::True))?;
    assert!(rt; rest.holds(&variable()));
    assert!(rt; !rest.holds(&Term::Con(Konst::True)));
    Ok(())
}

#[test]
fn a_variable_is_replaced(rt: HostRuntime) -> Result<(), Fail> {
    let both = pair(rt.alloc())?;
    assert!(rt; !both.lacks(3, &Ty::Base(0)));
    let after = both.replaced(rt.alloc(), 3, &Ty::Base(0), &Term::Con(Konst::False))?;
    assert!(rt; after.holds(&Term::Con(Konst::False)));
    assert!(rt; after.lacks(3, &Ty::Base(0)));
    Ok(())
}

#[test]
fn nothing_is_held_by_the_empty_set(rt: HostRuntime) -> Result<(), Fail> {
    let none = Hyps::none(rt.alloc())?;
    assert!(rt; none.is_empty());
    let one = none.union(rt.alloc(), &Hyps::one(rt.alloc(), variable())?)?;
    assert!(rt; !one.is_empty());
    Ok(())
}

/// The variables whose numbers are `0`, `step`, `2 step` .. to the remainders by 101, each put in by itself.
fn variables(alloc: Global, count: u64, step: u64) -> Result<Hyps, NoMemory> {
    let mut all = Hyps::none(alloc)?;
    let mut n = 0;
    for _ in 0..count {
        all = all.union(alloc, &Hyps::one(alloc, Term::Free(n, Ty::Base(0)))?)?;
        n = n.wrapping_add(step) % 101;
    }
    Ok(all)
}

/// Whether the list has the variables from 0 on in order.
fn counts_up(terms: &[Term]) -> bool {
    for (i, t) in terms.iter().enumerate() {
        match t {
            Term::Free(n, _) if *n == i as u64 => {}
            _ => return false,
        }
    }
    true
}

#[test]
fn many_terms_are_gathered(rt: HostRuntime) -> Result<(), Fail> {
    let all = variables(rt.alloc(), 101, 37)?;
    let again = variables(rt.alloc(), 101, 1)?;
    assert!(rt; all.len() == 101);
    assert!(rt; again.union(rt.alloc(), &all)?.len() == 101);
    let list = all.listed(rt.alloc())?;
    assert!(rt; list.len() == 101 && counts_up(list.as_slice()));
    assert!(rt; again.occurrences(100, &Ty::Base(0)) == 1);
    Ok(())
}
