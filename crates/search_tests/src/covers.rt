use cover_marks::{marks_of, may_subsume};
use fo_terms::{Atom, Clause, FoTerm, Literal};
use std::alloc::Global;
use std::test::Fail;
use text_kit::{NoMemory, Rows};

/// A variable or a constant.
#[derive(Clone, Copy, Drop)]
enum Argument {
    Open(u64),
    Constant(u64),
}

/// A symbol of two arguments, or not so, or an equation.
#[derive(Clone, Copy, Drop)]
enum Pair {
    Yes(Argument, Argument),
    No(Argument, Argument),
    Equal(Argument, Argument),
}

#[derive(Clone, Copy, Drop)]
enum Literals {
    One(Pair),
    Two(Pair, Pair),
}

/// Two clauses, and whether the first may subsume the second.
#[derive(Clone, Copy, Drop)]
struct Row {
    left: Literals,
    right: Literals,
    may: bool,
}

const X: Argument = Argument::Open(0);

const Y: Argument = Argument::Open(1);

const A: Argument = Argument::Constant(7);

const B: Argument = Argument::Constant(8);

const OPEN: Pair = Pair::Yes(X, Y);

const FROM_A: Pair = Pair::Yes(A, X);

const TO_B: Pair = Pair::Yes(X, B);

const ONWARD: Pair = Pair::Yes(A, B);

const BACK: Pair = Pair::Yes(B, A);

const DENIED: Pair = Pair::No(A, X);

const SAME: Pair = Pair::Equal(A, X);

const ROWS: [Row; 10] = [
    Row {
        left: Literals::One(FROM_A),
        right: Literals::Two(BACK, ONWARD),
        may: true,
    },
    Row {
        left: Literals::One(FROM_A),
        right: Literals::Two(BACK, TO_B),
        may: false,
    },
    Row {
        left: Literals::Two(FROM_A, TO_B),
        right: Literals::Two(ONWARD, BACK),
        may: true,
    },
    Row {
        left: Literals::Two(FROM_A, TO_B),
        right: Literals::One(ONWARD),
        may: false,
    },
    Row {
        left: Literals::Two(FROM_A, BACK),
        right: Literals::Two(ONWARD, ONWARD),
        may: false,
    },
    Row {
        left: Literals::One(OPEN),
        right: Literals::One(BACK),
        may: true,
    },
    Row {
        left: Literals::One(ONWARD),
        right: Literals::One(OPEN),
        may: false,
    },
    Row {
        left: Literals::One(DENIED),
        right: Literals::One(ONWARD),
        may: false,
    },
    Row {
        left: Literals::One(OPEN),
        right: Literals::One(DENIED),
        may: false,
    },
    Row {
        left: Literals::One(SAME),
        right: Literals::Two(SAME, DENIED),
        may: true,
    },
];

fn term(alloc: Global, argument: Argument) -> FoTerm {
    match argument {
        Argument::Open(x) => FoTerm::Var(x),
        Argument::Constant(f) => FoTerm::Fun(f, Rows::begin(alloc)),
    }
}

fn held(alloc: Global, left: Argument, right: Argument) -> Result<Atom, NoMemory> {
    let mut args = Rows::begin(alloc);
    args.push(term(alloc, left))?;
    args.push(term(alloc, right))?;
    Ok(Atom::Holds(FoTerm::Fun(1, args)))
}

fn literal(alloc: Global, pair: Pair) -> Result<Literal, NoMemory> {
    let (positive, atom) = match pair {
        Pair::Yes(left, right) => (true, held(alloc, left, right)?),
        Pair::No(left, right) => (false, held(alloc, left, right)?),
        Pair::Equal(left, right) => (true, Atom::Eq(term(alloc, left), term(alloc, right))),
    };
    Ok(Literal { positive, atom })
}

fn clause(alloc: Global, made: Literals) -> Result<Clause, NoMemory> {
    let mut literals = Rows::begin(alloc);
    match made {
        Literals::One(l) => literals.push(literal(alloc, l)?)?,
        Literals::Two(l, k) => {
            literals.push(literal(alloc, l)?)?;
            literals.push(literal(alloc, k)?)?;
        }
    }
    Ok(Clause { literals })
}

fn is_told(alloc: Global, row: &Row) -> Result<bool, NoMemory> {
    let left = marks_of(alloc, &clause(alloc, row.left)?)?;
    let right = marks_of(alloc, &clause(alloc, row.right)?)?;
    Ok(may_subsume(&left, &right) == row.may)
}

#[test]
fn literals_rule_subsumption_out(rt: HostRuntime) -> Result<(), Fail> {
    for row in &ROWS {
        assert!(rt; is_told(rt.alloc(), row)?);
    }
    Ok(())
}
