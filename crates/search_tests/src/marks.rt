use fo_terms::{Atom, Clause, FoTerm, Literal};
use pair_marks::{marks_of, may_infer};
use std::alloc::Global;
use std::test::Fail;
use text_kit::{NoMemory, Rows};

/// A variable, a symbol alone, a symbol on a variable, or a symbol on another.
#[derive(Clone, Copy, Drop)]
enum Shape {
    Bare,
    Constant(u64),
    Open(u64),
    Tagged(u64, u64),
}

/// A clause of one literal.
#[derive(Clone, Copy, Drop)]
enum Unit {
    Holds(bool, Shape),
    Equal(Shape, Shape),
}

/// Two clauses, and whether they may have inferences at tags, and at all subterms.
#[derive(Clone, Copy, Drop)]
struct Row {
    left: Unit,
    right: Unit,
    tags: bool,
    plain: bool,
}

const ANY: Unit = Unit::Holds(true, Shape::Open(1));

const ONE: Unit = Unit::Holds(true, Shape::Tagged(1, 2));

const OTHER: Unit = Unit::Holds(false, Shape::Tagged(1, 3));

const OPEN: Unit = Unit::Holds(false, Shape::Open(5));

const CORES: Unit = Unit::Equal(Shape::Constant(3), Shape::Constant(4));

const TAGS: Unit = Unit::Equal(Shape::Tagged(1, 3), Shape::Constant(4));

const BARE: Unit = Unit::Equal(Shape::Bare, Shape::Constant(4));

const ROWS: [Row; 12] = [
    Row {
        left: ANY,
        right: OTHER,
        tags: true,
        plain: true,
    },
    Row {
        left: ONE,
        right: OTHER,
        tags: false,
        plain: false,
    },
    Row {
        left: OTHER,
        right: ONE,
        tags: false,
        plain: false,
    },
    Row {
        left: ANY,
        right: OPEN,
        tags: false,
        plain: false,
    },
    Row {
        left: ANY,
        right: ONE,
        tags: false,
        plain: false,
    },
    Row {
        left: TAGS,
        right: OTHER,
        tags: true,
        plain: true,
    },
    Row {
        left: TAGS,
        right: ONE,
        tags: false,
        plain: false,
    },
    Row {
        left: CORES,
        right: OTHER,
        tags: false,
        plain: true,
    },
    Row {
        left: CORES,
        right: OPEN,
        tags: false,
        plain: false,
    },
    Row {
        left: CORES,
        right: ONE,
        tags: false,
        plain: false,
    },
    Row {
        left: BARE,
        right: OTHER,
        tags: true,
        plain: true,
    },
    Row {
        left: OTHER,
        right: TAGS,
        tags: false,
        plain: false,
    },
];

fn on(alloc: Global, f: u64, t: FoTerm) -> Result<FoTerm, NoMemory> {
    let mut args = Rows::begin(alloc);
    args.push(t)?;
    Ok(FoTerm::Fun(f, args))
}

fn term(alloc: Global, shape: Shape) -> Result<FoTerm, NoMemory> {
    match shape {
        Shape::Bare => Ok(FoTerm::Var(0)),
        Shape::Constant(f) => Ok(FoTerm::Fun(f, Rows::begin(alloc))),
        Shape::Open(f) => on(alloc, f, FoTerm::Var(0)),
        Shape::Tagged(f, g) => on(alloc, f, FoTerm::Fun(g, Rows::begin(alloc))),
    }
}

fn literal(alloc: Global, unit: Unit) -> Result<Literal, NoMemory> {
    match unit {
        Unit::Holds(positive, shape) => Ok(Literal {
            positive,
            atom: Atom::Holds(term(alloc, shape)?),
        }),
        Unit::Equal(left, right) => {
            let s = term(alloc, left)?;
            let t = term(alloc, right)?;
            Ok(Literal {
                positive: true,
                atom: Atom::Eq(s, t),
            })
        }
    }
}

fn clause(alloc: Global, unit: Unit) -> Result<Clause, NoMemory> {
    let mut literals = Rows::begin(alloc);
    literals.push(literal(alloc, unit)?)?;
    Ok(Clause { literals })
}

/// Whether two clauses may have inferences, as their marks tell.
fn may(alloc: Global, plain: bool, left: &Clause, right: &Clause) -> Result<bool, NoMemory> {
    let needs = marks_of(alloc, plain, left)?;
    let offers = marks_of(alloc, plain, right)?;
    Ok(may_infer(&needs, &offers))
}

fn is_told(alloc: Global, row: &Row) -> Result<bool, NoMemory> {
    let left = clause(alloc, row.left)?;
    let right = clause(alloc, row.right)?;
    let tags = may(alloc, false, &left, &right)?;
    let plain = may(alloc, true, &left, &right)?;
    Ok(tags == row.tags && plain == row.plain)
}

#[test]
fn marks_rule_pairs_out(rt: HostRuntime) -> Result<(), Fail> {
    for row in &ROWS {
        assert!(rt; is_told(rt.alloc(), row)?);
    }
    Ok(())
}
