use crate::{Cells, FlatClause, print_of, put_term};
use fo_terms::{Atom, Clause, FoTerm, Literal};
use std::alloc::Global;
use std::test::Fail;
use text_kit::{NoMemory, Rows};

fn pair(alloc: Global, x: u64, y: u64) -> Result<FoTerm, NoMemory> {
    let mut args = Rows::begin(alloc);
    args.push(FoTerm::Var(x))?;
    args.push(FoTerm::Var(y))?;
    Ok(FoTerm::Fun(7, args))
}

/// `f(x, y) | ~(x = f(y, x))`
fn clause(alloc: Global, x: u64, y: u64) -> Result<Clause, NoMemory> {
    let mut literals = Rows::begin(alloc);
    literals.push(Literal {
        positive: true,
        atom: Atom::Holds(pair(alloc, x, y)?),
    })?;
    literals.push(Literal {
        positive: false,
        atom: Atom::Eq(FoTerm::Var(x), pair(alloc, y, x)?),
    })?;
    Ok(Clause { literals })
}

fn add_holds(out: &mut FlatClause, alloc: Global, t: &FoTerm) -> Result<(), NoMemory> {
    let mut cells = Cells::begin(alloc);
    if put_term(t, &mut cells)? {
        out.add_holds(true, cells.as_slice())?;
    }
    Ok(())
}

fn add_equation(
    out: &mut FlatClause,
    alloc: Global,
    positive: bool,
    s: &FoTerm,
    t: &FoTerm,
) -> Result<(), NoMemory> {
    let mut left = Cells::begin(alloc);
    let mut right = Cells::begin(alloc);
    if put_term(s, &mut left)? {
        if put_term(t, &mut right)? {
            out.add_equation(positive, left.as_slice(), right.as_slice())?;
        }
    }
    Ok(())
}

/// `f(9, 3) | ~(9 = f(3, 9))` from these literals, of which the first comes twice, and `~(9 = 9)`
fn flat(alloc: Global) -> Result<FlatClause, NoMemory> {
    let mut out = FlatClause::begin(alloc);
    add_holds(&mut out, alloc, &pair(alloc, 9, 3)?)?;
    add_equation(&mut out, alloc, false, &FoTerm::Var(9), &FoTerm::Var(9))?;
    add_holds(&mut out, alloc, &pair(alloc, 9, 3)?)?;
    add_equation(&mut out, alloc, false, &FoTerm::Var(9), &pair(alloc, 3, 9)?)?;
    Ok(out)
}

#[test]
fn brings_to_normal_form(rt: HostRuntime) -> Result<(), Fail> {
    let alloc = rt.alloc();
    let mut flat = flat(alloc)?;
    assert_eq!(rt; (flat.len(), flat.weight()), (2, 7));
    flat.number()?;
    let wanted = clause(alloc, 0, 1)?;
    assert!(rt; flat.is_clause(&wanted));
    assert!(rt; flat.to_clause(alloc)?.same(&wanted));
    assert_eq!(rt; flat.print(), print_of(&wanted));
    Ok(())
}

#[test]
fn keeps_a_copy(rt: HostRuntime) -> Result<(), Fail> {
    let alloc = rt.alloc();
    let mut first = flat(alloc)?;
    let mut other = first.copy(alloc)?;
    first.clear();
    assert_eq!(rt; (first.len(), other.len()), (0, 2));
    assert!(rt; !other.is_positive(1) && other.is_equation(1));
    assert_eq!(rt; other.atom(1).len(), 4);
    assert!(rt; !other.is_tautology());
    add_equation(&mut other, alloc, true, &FoTerm::Var(9), &FoTerm::Var(9))?;
    assert!(rt; other.is_tautology());
    Ok(())
}
