use fo_terms::{Atom, FoFormula, FoTerm, Literal};
use fol_cnf::{CnfFault, NamedClause, cnf};
use std::alloc::Global;
use std::test::Fail;
use text_kit::{Bytes, NoMemory, Rows, Shared};
use tptp_syntax::{Problem, Statement};

/// The symbols p and q, r of two arguments, and the first new one.
const P: u64 = 0;

const Q: u64 = 1;

const R: u64 = 2;

const NEW: u64 = 3;

#[derive(Clone, Copy)]
enum Connective {
    And,
    Or,
    Imp,
    Iff,
}

fn two(alloc: Global, kind: Connective, a: FoFormula, b: FoFormula) -> Result<FoFormula, NoMemory> {
    let left = Shared::new(alloc, a)?;
    let right = Shared::new(alloc, b)?;
    match kind {
        Connective::And => Ok(FoFormula::And(left, right)),
        Connective::Or => Ok(FoFormula::Or(left, right)),
        Connective::Imp => Ok(FoFormula::Imp(left, right)),
        Connective::Iff => Ok(FoFormula::Iff(left, right)),
    }
}

fn constant(alloc: Global, symbol: u64) -> FoFormula {
    FoFormula::Atom(Atom::Holds(FoTerm::Fun(symbol, Rows::begin(alloc))))
}

/// The clauses of one statement over p, q and r.
fn clauses(
    alloc: Global,
    formula: FoFormula,
    conjecture: bool,
) -> Result<Rows<NamedClause>, CnfFault> {
    let mut names = Rows::begin(alloc);
    names.push(Bytes::from_slice(alloc, b"p")?)?;
    names.push(Bytes::from_slice(alloc, b"q")?)?;
    names.push(Bytes::from_slice(alloc, b"r")?)?;
    let mut statements = Rows::begin(alloc);
    statements.push(Statement {
        name: Bytes::from_slice(alloc, b"s")?,
        conjecture,
        formula,
    })?;
    cnf(alloc, &Problem { names, statements })
}

/// A digit for a literal of a constant: p is 1, its negation 2, q 3, its negation 4.
fn digit(l: &Literal) -> u64 {
    match &l.atom {
        Atom::Holds(FoTerm::Fun(P, _)) => { if l.positive { 1 } else { 2 } }
        Atom::Holds(FoTerm::Fun(Q, _)) => { if l.positive { 3 } else { 4 } }
        _ => 9,
    }
}

/// Whether the clauses are of one literal or two with these digits.
fn are(made: Result<Rows<NamedClause>, CnfFault>, wanted: &[&[u64]]) -> bool {
    let Ok(cs) = made else {
        return false;
    };
    if cs.len() != wanted.len() {
        return false;
    }
    for i in 0..wanted.len() {
        if !has_digits(cs.at(i).clause.literals.as_slice(), wanted[i]) {
            return false;
        }
    }
    true
}

fn has_digits(literals: &[Literal], digits: &[u64]) -> bool {
    if literals.len() != digits.len() {
        return false;
    }
    for i in 0..literals.len() {
        if digit(&literals[i]) != digits[i] {
            return false;
        }
    }
    true
}

/// Whether the formula has these clauses with the two signs. It is given twice.
fn has(
    alloc: Global,
    f: Result<FoFormula, NoMemory>,
    again: Result<FoFormula, NoMemory>,
    positive: &[&[u64]],
    negative: &[&[u64]],
) -> bool {
    match (f, again) {
        (Ok(f), Ok(again)) => are(clauses(alloc, f, false), positive)
            && are(clauses(alloc, again, true), negative),
        _ => false,
    }
}

fn of_p_and_q(alloc: Global, kind: Connective) -> Result<FoFormula, NoMemory> {
    two(alloc, kind, constant(alloc, P), constant(alloc, Q))
}

fn not_p(alloc: Global) -> Result<FoFormula, NoMemory> {
    Ok(FoFormula::Not(Shared::new(alloc, constant(alloc, P))?))
}

#[test]
fn connectives_give_clauses_by_cases(rt: HostRuntime) -> Result<(), Fail> {
    let alloc = rt.alloc();
    assert!(rt;
        has(
            alloc,
            of_p_and_q(alloc, Connective::And),
            of_p_and_q(alloc, Connective::And),
            &[&[1], &[3]],
            &[&[2, 4]]
        )
    );
    assert!(rt;
        has(
            alloc,
            of_p_and_q(alloc, Connective::Or),
            of_p_and_q(alloc, Connective::Or),
            &[&[1, 3]],
            &[&[2], &[4]]
        )
    );
    assert!(rt;
        has(
            alloc,
            of_p_and_q(alloc, Connective::Imp),
            of_p_and_q(alloc, Connective::Imp),
            &[&[2, 3]],
            &[&[1], &[4]]
        )
    );
    assert!(rt;
        has(
            alloc,
            of_p_and_q(alloc, Connective::Iff),
            of_p_and_q(alloc, Connective::Iff),
            &[&[2, 3], &[1, 4]],
            &[&[1, 3], &[2, 4]]
        )
    );
    assert!(rt; has(alloc, not_p(alloc), not_p(alloc), &[&[2]], &[&[1]]));
    assert!(rt; has(alloc, Ok(FoFormula::True), Ok(FoFormula::True), &[], &[&[]]));
    assert!(rt;
        has(
            alloc,
            Ok(FoFormula::False),
            Ok(FoFormula::False),
            &[&[]],
            &[]
        )
    );
    Ok(())
}

/// `r(x, y)` for these variables
fn related(alloc: Global, x: FoTerm, y: FoTerm) -> Result<FoTerm, NoMemory> {
    let mut args = Rows::begin(alloc);
    args.push(x)?;
    args.push(y)?;
    Ok(FoTerm::Fun(R, args))
}

/// `!x. ?y. r(x, y)`, with 7 for x and 5 for y
fn each_has_one(alloc: Global) -> Result<FoFormula, NoMemory> {
    let atom = FoFormula::Atom(Atom::Holds(related(alloc, FoTerm::Var(7), FoTerm::Var(5))?));
    let some = FoFormula::One(5, Shared::new(alloc, atom)?);
    Ok(FoFormula::Each(7, Shared::new(alloc, some)?))
}

/// The new symbol on variable 0, or on nothing.
fn chosen(alloc: Global, over: bool) -> Result<FoTerm, NoMemory> {
    let mut args = Rows::begin(alloc);
    if over {
        args.push(FoTerm::Var(0))?;
    }
    Ok(FoTerm::Fun(NEW, args))
}

fn is_unit(made: Result<Rows<NamedClause>, CnfFault>, positive: bool, t: &FoTerm) -> bool {
    let Ok(cs) = made else {
        return false;
    };
    if cs.len() != 1 || cs.at(0).clause.literals.len() != 1 {
        return false;
    }
    let literal = cs.at(0).clause.literals.at(0);
    match &literal.atom {
        Atom::Holds(s) => literal.positive == positive && s.same(t),
        Atom::Eq(_, _) => false,
    }
}

#[test]
fn chosen_values_are_new_symbols(rt: HostRuntime) -> Result<(), Fail> {
    let alloc = rt.alloc();
    let fact = related(alloc, FoTerm::Var(0), chosen(alloc, true)?)?;
    assert!(rt; is_unit(clauses(alloc, each_has_one(alloc)?, false), true, &fact));
    let goal = related(alloc, chosen(alloc, false)?, FoTerm::Var(0))?;
    assert!(rt; is_unit(clauses(alloc, each_has_one(alloc)?, true), false, &goal));
    Ok(())
}

/// So many times p, joined.
fn many(alloc: Global, times: u32) -> Result<FoFormula, NoMemory> {
    let mut all = constant(alloc, P);
    for _ in 1..times {
        all = two(alloc, Connective::And, all, constant(alloc, P))?;
    }
    Ok(all)
}

/// A disjunction of two conjunctions, with 1,024 clauses.
fn product(alloc: Global) -> Result<FoFormula, NoMemory> {
    two(alloc, Connective::Or, many(alloc, 32)?, many(alloc, 32)?)
}

fn number(made: Result<Rows<NamedClause>, CnfFault>) -> Option<usize> {
    match made {
        Ok(cs) => Some(cs.len()),
        Err(_) => None,
    }
}

#[test]
fn a_statement_has_at_most_1024_clauses(rt: HostRuntime) -> Result<(), Fail> {
    let alloc = rt.alloc();
    assert!(rt; number(clauses(alloc, product(alloc)?, false)) == Some(1_024));
    let more = two(alloc, Connective::And, product(alloc)?, constant(alloc, Q))?;
    assert!(rt; number(clauses(alloc, more, false)).is_none());
    Ok(())
}
