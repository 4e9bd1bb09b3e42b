use fo_infer::{Line, Origin, Rule};
use fo_terms::{Atom, Clause, FoTerm, Literal};
use text_kit::{Bytes, NoMemory, Rows, put_decimal};

/// A word and a blank.
fn put(out: &mut Bytes, word: &[u8]) -> Result<(), NoMemory> {
    out.append(word)?;
    out.push(b' ')?;
    Ok(())
}

fn put_number(out: &mut Bytes, n: u64) -> Result<(), NoMemory> {
    put_decimal(out, n)?;
    out.push(b' ')?;
    Ok(())
}

fn put_truth(out: &mut Bytes, b: bool) -> Result<(), NoMemory> {
    put_number(out, if b { 1 } else { 0 })
}

/// `v N`, or `f SYMBOL ARITY` and the arguments.
#[cycle(putting)]
fn put_term(out: &mut Bytes, t: &FoTerm) -> Result<(), NoMemory> {
    match t {
        FoTerm::Var(x) => {
            put(out, b"v")?;
            put_number(out, *x)
        }
        FoTerm::Fun(f, args) => {
            put(out, b"f")?;
            put_number(out, *f)?;
            put_number(out, args.len() as u64)?;
            put_terms(out, args.as_slice())
        }
    }
}

#[cycle(putting)]
fn put_terms(out: &mut Bytes, terms: &[FoTerm]) -> Result<(), NoMemory> {
    for t in terms {
        put_term(out, t)?;
    }
    Ok(())
}

fn put_literal(out: &mut Bytes, l: &Literal) -> Result<(), NoMemory> {
    put_truth(out, l.positive)?;
    match &l.atom {
        Atom::Holds(t) => {
            put(out, b"h")?;
            put_term(out, t)
        }
        Atom::Eq(s, t) => {
            put(out, b"e")?;
            put_term(out, s)?;
            put_term(out, t)
        }
    }
}

fn put_clause(out: &mut Bytes, c: &Clause) -> Result<(), NoMemory> {
    put_number(out, c.literals.len() as u64)?;
    for l in c.literals.as_slice() {
        put_literal(out, l)?;
    }
    Ok(())
}

fn put_path(out: &mut Bytes, path: &Rows<u64>) -> Result<(), NoMemory> {
    out.push(b'[')?;
    for k in 0..path.len() {
        if k > 0 {
            out.push(b' ')?;
        }
        put_decimal(out, *path.at(k))?;
    }
    out.push(b']')
}

/// `resolve I J`, `para I true|false J [PATH]`, `factor I J` or `reflex I`.
fn put_rule(out: &mut Bytes, rule: &Rule) -> Result<(), NoMemory> {
    match rule {
        Rule::Resolve { i, j } => {
            put(out, b"resolve")?;
            put_number(out, *i)?;
            put_decimal(out, *j)
        }
        Rule::Para {
            i,
            swapped,
            j,
            path,
        } => {
            put(out, b"para")?;
            put_number(out, *i)?;
            put(out, if *swapped { b"true" } else { b"false" })?;
            put_number(out, *j)?;
            put_path(out, path)
        }
        Rule::Factor { i, j } => {
            put(out, b"factor")?;
            put_number(out, *i)?;
            put_decimal(out, *j)
        }
        Rule::Reflex { i } => {
            put(out, b"reflex")?;
            put_decimal(out, *i)
        }
    }
}

/// `input N`, `alone N RULE` or `pair N M RULE`.
fn put_origin(out: &mut Bytes, origin: &Origin) -> Result<(), NoMemory> {
    match origin {
        Origin::Input { number } => {
            put(out, b"input")?;
            put_decimal(out, *number)
        }
        Origin::Alone { of, rule } => {
            put(out, b"alone")?;
            put_number(out, *of)?;
            put_rule(out, rule)
        }
        Origin::Pair { left, right, rule } => {
            put(out, b"pair")?;
            put_number(out, *left)?;
            put_number(out, *right)?;
            put_rule(out, rule)
        }
    }
}

/// The clause in the form in which clauses are read, `| ` and its origin.
pub fn put_line(out: &mut Bytes, line: &Line) -> Result<(), NoMemory> {
    put_clause(out, &line.clause)?;
    put(out, b"|")?;
    put_origin(out, &line.origin)
}
