use super::*;
use fo_terms::FoTerm;
use std::alloc::Global;
use std::test::Fail;
use text_kit::{NoMemory, Rows};

fn unary(alloc: Global, f: u64, arg: FoTerm) -> Result<FoTerm, NoMemory> {
    let mut args = Rows::begin(alloc);
    args.push(arg)?;
    Ok(FoTerm::Fun(f, args))
}

fn constant(alloc: Global, f: u64) -> FoTerm {
    FoTerm::Fun(f, Rows::begin(alloc))
}

#[test]
fn candidates_of_a_few_terms(rt: HostRuntime) -> Result<(), Fail> {
    let alloc = rt.alloc();
    let mut index = Index::begin(alloc);
    index.insert(&unary(alloc, 1, FoTerm::Var(0))?, 7)?;
    index.insert(&unary(alloc, 1, constant(alloc, 2))?, 5)?;
    index.insert(&constant(alloc, 3), 6)?;
    index.insert(&FoTerm::Var(0), 7)?;
    let same = unary(alloc, 1, constant(alloc, 2))?;
    assert_eq!(rt;
        index.candidates(alloc, &same)?.as_slice(),
        [5, 7].as_slice()
    );
    let other = unary(alloc, 1, constant(alloc, 3))?;
    assert_eq!(rt; index.candidates(alloc, &other)?.as_slice(), [7].as_slice());
    let any = index.candidates(alloc, &FoTerm::Var(4))?;
    assert_eq!(rt; any.as_slice(), [5, 6, 7].as_slice());
    Ok(())
}
