use fo_terms::{Atom, Clause, FoTerm, Literal};
use metis_core::{Search, Turn};
use std::alloc::Global;
use std::test::Fail;
use text_kit::{NoMemory, Rows};

fn constant(alloc: Global, f: u64) -> FoTerm {
    FoTerm::Fun(f, Rows::begin(alloc))
}

/// A symbol with one argument, as tags are.
fn tag(alloc: Global, f: u64, core: FoTerm) -> Result<FoTerm, NoMemory> {
    let mut args = Rows::begin(alloc);
    args.push(core)?;
    Ok(FoTerm::Fun(f, args))
}

/// A clause of tagged constants, each with its sign.
fn clause(alloc: Global, signed: &[(bool, u64)]) -> Result<Clause, NoMemory> {
    let mut literals = Rows::begin(alloc);
    for (positive, f) in signed {
        let atom = Atom::Holds(tag(alloc, 0, constant(alloc, *f))?);
        literals.push(Literal {
            positive: *positive,
            atom,
        })?;
    }
    Ok(Clause { literals })
}

fn equation(
    positive: bool,
    left: FoTerm,
    right: FoTerm,
    alloc: Global,
) -> Result<Clause, NoMemory> {
    let mut literals = Rows::begin(alloc);
    literals.push(Literal {
        positive,
        atom: Atom::Eq(left, right),
    })?;
    Ok(Clause { literals })
}

fn clauses(alloc: Global, all: &[&[(bool, u64)]]) -> Result<Rows<Clause>, NoMemory> {
    let mut out = Rows::begin(alloc);
    for signed in all {
        out.push(clause(alloc, *signed)?)?;
    }
    Ok(out)
}

/// What it comes to, and in which turn of one pick each.
fn run(search: &mut Search) -> (Turn, u32) {
    for turn in 1..1000 {
        match search.turn(1) {
            Turn::More => {}
            end => return (end, turn),
        }
    }
    (Turn::More, 1000)
}

fn ended(alloc: Global, all: &[&[(bool, u64)]], budget: u32) -> Result<(Turn, u32), NoMemory> {
    let mut search = Search::begin(alloc, clauses(alloc, all)?, budget)?;
    Ok(run(&mut search))
}

const P: u64 = 1;

const Q: u64 = 2;

#[test]
fn ends_as_its_budget_allows(rt: HostRuntime) -> Result<(), Fail> {
    let alloc = rt.alloc();
    let all: [&[(bool, u64)]; 3] = [&[(true, P)], &[(false, P), (true, Q)], &[(false, Q)]];
    assert_eq!(rt; ended(alloc, &all, 3)?, (Turn::Spent, 3));
    assert_eq!(rt; ended(alloc, &all, 4)?, (Turn::Found, 4));
    assert_eq!(rt; ended(alloc, &[&[(false, P)]], 2000)?, (Turn::Saturated, 1));
    let mut child = Search::begin_child(alloc, clauses(alloc, &all)?, 4, 1)?;
    assert_eq!(rt; run(&mut child), (Turn::Found, 4));
    assert_eq!(rt; child.turn(7), Turn::Found, "an end is answered again");
    Ok(())
}

#[test]
fn hands_out_a_refutation(rt: HostRuntime) -> Result<(), Fail> {
    let alloc = rt.alloc();
    let mut search = Search::begin(alloc, clauses(alloc, &[&[(true, P)], &[(false, P)]])?, 9)?;
    match search.turn(2) {
        Turn::Found => assert_eq!(rt; search.into_refutation().lines.len(), 3),
        _ => assert!(rt; false, "not found"),
    }
    Ok(())
}

#[test]
fn keeps_types_apart(rt: HostRuntime) -> Result<(), Fail> {
    let alloc = rt.alloc();
    let mut inputs = Rows::begin(alloc);
    inputs.push(equation(
        true,
        tag(alloc, 1, FoTerm::Var(0))?,
        tag(alloc, 1, FoTerm::Var(1))?,
        alloc,
    )?)?;
    inputs.push(equation(
        false,
        tag(alloc, 2, constant(alloc, 3))?,
        tag(alloc, 2, constant(alloc, 4))?,
        alloc,
    )?)?;
    let mut search = Search::begin(alloc, inputs, 2000)?;
    assert_eq!(rt; run(&mut search), (Turn::Saturated, 2));
    Ok(())
}

#[test]
fn needs_as_many_picks(rt: HostRuntime) -> Result<(), Fail> {
    let alloc = rt.alloc();
    let (u, v, r, t, p) = (1, 2, 3, 4, 5);
    let x: &[(bool, u64)] = &[(true, u)];
    let j: &[(bool, u64)] = &[(true, r)];
    let a1: &[(bool, u64)] = &[(true, p)];
    let a2: &[(bool, u64)] = &[(true, t)];
    let d1: &[(bool, u64)] = &[(false, p), (true, v)];
    let d2: &[(bool, u64)] = &[(false, p), (false, t), (true, u)];
    let goal: &[(bool, u64)] = &[(false, u), (false, v)];
    assert_eq!(rt;
        ended(alloc, &[x, j, a1, a2, d1, d2, goal], 2000)?,
        (Turn::Found, 8)
    );
    assert_eq!(rt;
        ended(alloc, &[j, a1, a2, d1, d2, goal], 2000)?,
        (Turn::Found, 10)
    );
    assert_eq!(rt;
        ended(alloc, &[x, a1, a2, d1, d2, goal], 2000)?,
        (Turn::Found, 8)
    );
    assert_eq!(rt;
        ended(alloc, &[a1, a2, d1, d2, goal], 2000)?,
        (Turn::Found, 9)
    );
    Ok(())
}

const APP: u64 = 0;

const BOOL: u64 = 10;

const NAT: u64 = 11;

const NAT_TO_NAT: u64 = 12;

const NAT_TO_BOOL: u64 = 13;

const ZERO: u64 = 20;

const SUC: u64 = 21;

const E: u64 = 22;

fn applied(alloc: Global, f: FoTerm, x: FoTerm) -> Result<FoTerm, NoMemory> {
    let mut args = Rows::begin(alloc);
    args.push(f)?;
    args.push(x)?;
    Ok(FoTerm::Fun(APP, args))
}

/// `suc zero`, tagged
fn one(alloc: Global) -> Result<FoTerm, NoMemory> {
    let zero = tag(alloc, NAT, constant(alloc, ZERO))?;
    let suc = tag(alloc, NAT_TO_NAT, constant(alloc, SUC))?;
    tag(alloc, NAT, applied(alloc, suc, zero)?)
}

/// `e (suc zero)`, tagged
fn heavy(alloc: Global) -> Result<FoTerm, NoMemory> {
    let e = tag(alloc, NAT_TO_BOOL, constant(alloc, E))?;
    let arg = one(alloc)?;
    tag(alloc, BOOL, applied(alloc, e, arg)?)
}

fn heavy_unit(alloc: Global, positive: bool) -> Result<Clause, NoMemory> {
    let mut literals = Rows::begin(alloc);
    literals.push(Literal {
        positive,
        atom: Atom::Holds(heavy(alloc)?),
    })?;
    Ok(Clause { literals })
}

/// Two heavy units that contradict each other, then eleven light ones.
fn heavy_first(alloc: Global) -> Result<Rows<Clause>, NoMemory> {
    let mut inputs = Rows::begin(alloc);
    inputs.push(heavy_unit(alloc, true)?)?;
    inputs.push(heavy_unit(alloc, false)?)?;
    for f in 30..40 {
        inputs.push(clause(alloc, &[(true, f)])?)?;
    }
    inputs.push(clause(alloc, &[(false, 40)])?)?;
    Ok(inputs)
}

/// Every fifth pick takes the oldest clause, however heavy. No other pick before the twelfth takes a heavy one, since eleven are
/// lighter: so the first heavy one is pick 5 and the second pick 10.
#[test]
fn picks_the_oldest(rt: HostRuntime) -> Result<(), Fail> {
    let alloc = rt.alloc();
    let mut search = Search::begin(alloc, heavy_first(alloc)?, 10)?;
    assert_eq!(rt; run(&mut search), (Turn::Found, 10));
    let mut short = Search::begin(alloc, heavy_first(alloc)?, 9)?;
    assert_eq!(rt; run(&mut short), (Turn::Spent, 9));
    Ok(())
}
