use crate::{Atom, Clause, FoTerm, Literal, have_one_normal_form, normal_form_stays};
use std::alloc::Global;
use std::test::Fail;
use text_kit::{NoMemory, Rows};

fn pair(alloc: Global, f: u64, x: u64, y: u64) -> Result<FoTerm, NoMemory> {
    let mut args = Rows::begin(alloc);
    args.push(FoTerm::Var(x))?;
    args.push(FoTerm::Var(y))?;
    Ok(FoTerm::Fun(f, args))
}

fn literal(positive: bool, atom: Atom) -> Literal {
    Literal { positive, atom }
}

#[test]
fn brings_to_normal_form(rt: HostRuntime) -> Result<(), Fail> {
    let alloc = rt.alloc();
    let mut literals = Rows::begin(alloc);
    literals.push(literal(
        false,
        Atom::Eq(pair(alloc, 1, 7, 8)?, pair(alloc, 1, 7, 8)?),
    ))?;
    literals.push(literal(true, Atom::Holds(pair(alloc, 2, 9, 3)?)))?;
    literals.push(literal(true, Atom::Holds(pair(alloc, 2, 9, 3)?)))?;
    literals.push(literal(false, Atom::Eq(FoTerm::Var(3), FoTerm::Var(9))))?;
    let clause = Clause { literals };
    let mut wanted = Rows::begin(alloc);
    wanted.push(literal(true, Atom::Holds(pair(alloc, 2, 0, 1)?)))?;
    wanted.push(literal(false, Atom::Eq(FoTerm::Var(1), FoTerm::Var(0))))?;
    let wanted = Clause { literals: wanted };
    have_one_normal_form(&clause, &wanted);
    normal_form_stays(&clause);
    let normal = clause.copy(alloc)?.normal(alloc)?;
    assert!(rt; normal.same(&wanted));
    assert!(rt; !normal.same(&clause.clone()?));
    assert_eq!(rt; (clause.weight(), normal.weight()), (14, 5));
    Ok(())
}

#[test]
fn tells_tautologies(rt: HostRuntime) -> Result<(), Fail> {
    let alloc = rt.alloc();
    let mut literals = Rows::begin(alloc);
    literals.push(literal(true, Atom::Holds(pair(alloc, 2, 0, 1)?)))?;
    literals.push(literal(false, Atom::Holds(pair(alloc, 2, 1, 0)?)))?;
    let mut clause = Clause { literals };
    assert!(rt; !clause.is_tautology());
    clause
        .literals
        .push(literal(true, Atom::Holds(pair(alloc, 2, 1, 0)?)))?;
    assert!(rt; clause.is_tautology());
    Ok(())
}
