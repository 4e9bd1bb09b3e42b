use fo_terms::FoTerm;
use fo_unify::{matches, unify, unify_both};
use std::alloc::Global;
use std::test::Fail;
use text_kit::{NoMemory, Rows};

fn var(x: u64) -> FoTerm {
    FoTerm::Var(x)
}

fn two(alloc: Global, f: u64, x: FoTerm, y: FoTerm) -> Result<FoTerm, NoMemory> {
    let mut args = Rows::begin(alloc);
    args.push(x)?;
    args.push(y)?;
    Ok(FoTerm::Fun(f, args))
}

/// The number of bindings of a most general unifier, and the weight of the first one's term.
fn solved(alloc: Global, s: &FoTerm, t: &FoTerm) -> Result<Option<(usize, u64)>, NoMemory> {
    match unify(alloc, s, t)? {
        None => Ok(None),
        Some(u) => match u.binds.get(0) {
            None => Ok(Some((0, 0))),
            Some(b) => Ok(Some((u.binds.len(), b.term.weight()))),
        },
    }
}

#[test]
fn unifies(rt: HostRuntime) -> Result<(), Fail> {
    let alloc = rt.alloc();
    let left = two(alloc, 1, var(0), two(alloc, 1, var(1), var(0))?)?;
    let right = two(
        alloc,
        1,
        var(2),
        two(alloc, 1, two(alloc, 2, var(2), var(2))?, var(3))?,
    )?;
    assert_eq!(rt; solved(alloc, &left, &right)?, Some((3, 1)));
    let knot = two(alloc, 1, two(alloc, 2, var(0), var(0))?, var(1))?;
    assert_eq!(rt;
        solved(alloc, &two(alloc, 1, var(1), var(0))?, &knot)?,
        None,
        "a cycle of two bindings"
    );
    let both = unify_both(
        alloc,
        (&var(0), &var(1)),
        (&var(1), &two(alloc, 2, var(0), var(2))?),
    )?;
    assert!(rt; both.is_none());
    Ok(())
}

/// Unifies `f(x1, .., xn)` with `f(g(x0, x0), .., g(xm, xm))`, m = n - 1: the last variable's term has `2 ^ (n + 1) - 1` symbols.
#[test]
fn unifies_what_grows(rt: HostRuntime) -> Result<(), Fail> {
    let alloc = rt.alloc();
    let mut left = Rows::begin(alloc);
    let mut right = Rows::begin(alloc);
    for x in 0..12u64 {
        left.push(var(x + 1))?;
        right.push(two(alloc, 2, var(x), var(x))?)?;
    }
    let solution = unify(alloc, &FoTerm::Fun(1, left), &FoTerm::Fun(1, right))?;
    let mut heaviest = 0;
    if let Some(u) = &solution {
        for b in u.binds.as_slice() {
            heaviest = heaviest.max(b.term.weight());
        }
    }
    assert_eq!(rt; heaviest, 8191);
    Ok(())
}

#[test]
fn matches_once(rt: HostRuntime) -> Result<(), Fail> {
    let alloc = rt.alloc();
    let pattern = two(alloc, 1, var(0), var(0))?;
    let made = matches(alloc, &pattern, &two(alloc, 1, var(5), var(5))?)?;
    assert!(rt; made.is_some());
    assert!(rt;
        matches(alloc, &pattern, &two(alloc, 1, var(0), var(5))?)?.is_none(),
        "the second occurrence"
    );
    Ok(())
}
