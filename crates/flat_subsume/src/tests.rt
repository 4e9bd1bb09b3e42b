use crate::Subsumer;
use fo_cells::FlatClause;
use fo_terms::{Atom, Clause, FoTerm, Literal};
use std::alloc::Global;
use std::test::Fail;
use text_kit::{NoMemory, Rows};

/// `p(left, right)`, or its negation. From 100 on a number is a constant, and below a variable.
#[derive(Clone, Copy, Drop)]
struct Sides {
    positive: bool,
    left: u64,
    right: u64,
}

fn holds(left: u64, right: u64) -> Sides {
    Sides {
        positive: true,
        left,
        right,
    }
}

fn fails(left: u64, right: u64) -> Sides {
    Sides {
        positive: false,
        left,
        right,
    }
}

fn term(alloc: Global, number: u64) -> FoTerm {
    if number < 100 {
        return FoTerm::Var(number);
    }
    FoTerm::Fun(number, Rows::begin(alloc))
}

fn clause(alloc: Global, sides: &[Sides]) -> Result<Clause, NoMemory> {
    let mut literals = Rows::begin(alloc);
    for s in sides {
        let mut args = Rows::begin(alloc);
        args.push(term(alloc, s.left))?;
        args.push(term(alloc, s.right))?;
        literals.push(Literal {
            positive: s.positive,
            atom: Atom::Holds(FoTerm::Fun(100, args)),
        })?;
    }
    Ok(Clause { literals })
}

/// What a test of the one clause on the other answers.
fn answer(alloc: Global, c: &[Sides], d: &[Sides]) -> Result<Option<bool>, NoMemory> {
    let made = Subsumer::of(alloc, &clause(alloc, c)?)?;
    let other = FlatClause::of(alloc, &clause(alloc, d)?)?;
    match (made, other) {
        (Some(subsumer), Some(flat)) => Ok(subsumer.tries(&flat)),
        _ => Ok(None),
    }
}

#[test]
fn tells_whether_it_subsumes(rt: HostRuntime) -> Result<(), Fail> {
    let alloc = rt.alloc();
    let told = answer(alloc, &[holds(0, 101)], &[fails(1, 1), holds(102, 101)])?;
    assert!(rt; told == Some(true));
    let told = answer(alloc, &[holds(0, 101)], &[fails(0, 101), holds(102, 103)])?;
    assert!(rt; told == Some(false));
    // a variable that stands twice
    let told = answer(alloc, &[holds(0, 0)], &[holds(101, 102), holds(102, 102)])?;
    assert!(rt; told == Some(true));
    let told = answer(alloc, &[holds(0, 0)], &[holds(101, 102)])?;
    assert!(rt; told == Some(false));
    Ok(())
}

#[test]
fn goes_back_to_an_earlier_literal(rt: HostRuntime) -> Result<(), Fail> {
    let alloc = rt.alloc();
    let chain = [holds(0, 1), holds(1, 2)];
    // the first literal's first partner is the wrong one
    let told = answer(alloc, &chain, &[holds(101, 103), holds(102, 101)])?;
    assert!(rt; told == Some(true));
    // both are sent to the same literal
    let told = answer(alloc, &chain, &[fails(101, 101), holds(102, 102)])?;
    assert!(rt; told == Some(true));
    let told = answer(alloc, &chain, &[holds(102, 102)])?;
    assert!(rt; told == Some(false));
    let told = answer(alloc, &chain, &[holds(101, 102), holds(103, 104)])?;
    assert!(rt; told == Some(false));
    Ok(())
}

#[test]
fn gives_up_a_long_search(rt: HostRuntime) -> Result<(), Fail> {
    let alloc = rt.alloc();
    let wide = [
        holds(0, 1),
        holds(2, 3),
        holds(4, 5),
        holds(6, 7),
        fails(8, 8),
    ];
    let other = [
        holds(101, 102),
        holds(102, 103),
        holds(103, 104),
        holds(104, 105),
        holds(105, 106),
        fails(101, 102),
    ];
    assert!(rt; answer(alloc, &wide, &other)?.is_none());
    Ok(())
}
