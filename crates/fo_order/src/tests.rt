use crate::{Order, eligible, kbo};
use fo_terms::{Atom, Clause, FoTerm, Literal};
use std::alloc::Global;
use std::test::Fail;
use text_kit::{NoMemory, Rows};

fn var(x: u64) -> FoTerm {
    FoTerm::Var(x)
}

fn constant(alloc: Global, f: u64) -> FoTerm {
    FoTerm::Fun(f, Rows::begin(alloc))
}

fn one(alloc: Global, f: u64, x: FoTerm) -> Result<FoTerm, NoMemory> {
    let mut args = Rows::begin(alloc);
    args.push(x)?;
    Ok(FoTerm::Fun(f, args))
}

fn two(alloc: Global, f: u64, x: FoTerm, y: FoTerm) -> Result<FoTerm, NoMemory> {
    let mut args = Rows::begin(alloc);
    args.push(x)?;
    args.push(y)?;
    Ok(FoTerm::Fun(f, args))
}

/// Compares them both ways round.
fn compared(s: FoTerm, t: FoTerm) -> (Order, Order) {
    (kbo(&s, &t), kbo(&t, &s))
}

#[test]
fn orders(rt: HostRuntime) -> Result<(), Fail> {
    let alloc = rt.alloc();
    let greater = (Order::Greater, Order::Less);
    let unknown = (Order::Unknown, Order::Unknown);
    assert_eq!(rt;
        compared(one(alloc, 1, var(0))?, var(0)),
        greater,
        "heavier"
    );
    assert_eq!(rt;
        compared(one(alloc, 2, var(0))?, one(alloc, 1, var(0))?),
        greater,
        "later head"
    );
    assert_eq!(rt;
        compared(
            two(alloc, 1, var(0), constant(alloc, 3))?,
            two(alloc, 1, var(0), constant(alloc, 2))?
        ),
        greater,
        "second argument"
    );
    assert_eq!(rt;
        compared(
            two(alloc, 2, var(0), var(0))?,
            two(alloc, 1, var(0), var(1))?
        ),
        unknown,
        "counts of variables"
    );
    assert_eq!(rt;
        compared(
            two(alloc, 1, var(0), var(1))?,
            two(alloc, 1, var(1), var(0))?
        ),
        unknown,
        "variables"
    );
    assert_eq!(rt;
        kbo(
            &two(alloc, 1, var(0), var(1))?,
            &two(alloc, 1, var(0), var(1))?
        ),
        Order::Equal
    );
    Ok(())
}

#[test]
fn chooses_literals(rt: HostRuntime) -> Result<(), Fail> {
    let alloc = rt.alloc();
    let mut literals = Rows::begin(alloc);
    literals.push(Literal {
        positive: true,
        atom: Atom::Eq(constant(alloc, 1), constant(alloc, 2)),
    })?;
    literals.push(Literal {
        positive: false,
        atom: Atom::Holds(constant(alloc, 3)),
    })?;
    literals.push(Literal {
        positive: true,
        atom: Atom::Eq(constant(alloc, 1), constant(alloc, 4)),
    })?;
    let c = Clause { literals };
    assert_eq!(rt; c.literals.len(), 3);
    assert_eq!(rt;
        (eligible(&c, 0), eligible(&c, 1), eligible(&c, 2)),
        (false, false, true)
    );
    Ok(())
}
