use crate::UnitTree;
use fo_cells::{Cells, FlatClause, put_term};
use fo_terms::FoTerm;
use std::alloc::Global;
use std::test::Fail;
use text_kit::{NoMemory, Rows};

fn constant(alloc: Global, f: u64) -> FoTerm {
    FoTerm::Fun(f, Rows::begin(alloc))
}

fn pair(alloc: Global, f: u64, s: FoTerm, t: FoTerm) -> Result<FoTerm, NoMemory> {
    let mut args = Rows::begin(alloc);
    args.push(s)?;
    args.push(t)?;
    Ok(FoTerm::Fun(f, args))
}

/// Adds `p(s, t)` or its negation.
fn add(
    out: &mut FlatClause,
    alloc: Global,
    positive: bool,
    s: FoTerm,
    t: FoTerm,
) -> Result<(), NoMemory> {
    let mut cells = Cells::begin(alloc);
    if put_term(&pair(alloc, 9, s, t)?, &mut cells)? {
        out.add_holds(positive, cells.as_slice())?;
    }
    Ok(())
}

fn put(tree: &mut UnitTree, unit: &FlatClause) -> Result<(), NoMemory> {
    if unit.len() == 1 {
        tree.insert(unit)?;
    }
    Ok(())
}

/// A tree of `p(x, x)` and `~p(a, x)`.
fn planted(alloc: Global) -> Result<UnitTree, NoMemory> {
    let mut tree = UnitTree::begin(alloc)?;
    let mut unit = FlatClause::begin(alloc);
    add(&mut unit, alloc, true, FoTerm::Var(0), FoTerm::Var(0))?;
    put(&mut tree, &unit)?;
    unit.clear();
    add(&mut unit, alloc, false, constant(alloc, 1), FoTerm::Var(0))?;
    put(&mut tree, &unit)?;
    Ok(tree)
}

#[test]
fn tells_what_a_unit_subsumes(rt: HostRuntime) -> Result<(), Fail> {
    let alloc = rt.alloc();
    let tree = planted(alloc)?;
    let mut clause = FlatClause::begin(alloc);
    // no instance of `p(x, x)` nor of the other
    add(
        &mut clause,
        alloc,
        true,
        constant(alloc, 1),
        constant(alloc, 2),
    )?;
    add(
        &mut clause,
        alloc,
        false,
        constant(alloc, 2),
        constant(alloc, 2),
    )?;
    assert!(rt; !tree.subsumes(&clause));
    let left = pair(alloc, 4, constant(alloc, 1), FoTerm::Var(5))?;
    let right = left.copy(alloc)?;
    add(&mut clause, alloc, true, left, right)?;
    assert!(rt; tree.subsumes(&clause));
    clause.clear();
    add(
        &mut clause,
        alloc,
        false,
        constant(alloc, 1),
        FoTerm::Var(3),
    )?;
    assert!(rt; tree.subsumes(&clause));
    Ok(())
}
