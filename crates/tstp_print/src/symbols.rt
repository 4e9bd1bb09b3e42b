use fo_infer::Line;
use fo_terms::{Atom, FoTerm};

/// A number above those of the symbols in a term.
#[cycle(topping)]
fn above_term(t: &FoTerm) -> u64 {
    match t {
        FoTerm::Var(_) => 0,
        FoTerm::Fun(f, args) => (*f).saturating_add(1).max(above_terms(args.as_slice())),
    }
}

#[cycle(topping)]
fn above_terms(terms: &[FoTerm]) -> u64 {
    let mut most = 0u64;
    for t in terms {
        most = most.max(above_term(t));
    }
    most
}

fn above_atom(a: &Atom) -> u64 {
    match a {
        Atom::Holds(t) => above_term(t),
        Atom::Eq(s, t) => above_term(s).max(above_term(t)),
    }
}

fn above_line(line: &Line) -> u64 {
    let mut most = 0u64;
    for l in line.clause.literals.as_slice() {
        most = most.max(above_atom(&l.atom));
    }
    most
}

/// A number above those of the symbols in lines. No clause rests on it: a table of new symbols that is too short is want of memory.
pub fn symbols_in(lines: &[Line]) -> usize {
    let mut most = 0u64;
    for line in lines {
        most = most.max(above_line(line));
    }
    most as usize
}
