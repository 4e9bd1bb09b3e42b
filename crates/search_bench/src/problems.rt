use fo_terms::{Atom, Clause, FoTerm, Literal};
use std::alloc::Global;
use text_kit::{NoMemory, Rows};

const TIMES: u64 = 0;

const INVERSE: u64 = 1;

const UNIT: u64 = 2;

const BEFORE: u64 = 3;

/// The constants of a problem come behind its functions.
const FIRST_CONSTANT: u64 = 10;

fn constant(alloc: Global, f: u64) -> FoTerm {
    FoTerm::Fun(f, Rows::begin(alloc))
}

fn one(alloc: Global, f: u64, x: FoTerm) -> Result<FoTerm, NoMemory> {
    let mut args = Rows::begin(alloc);
    args.push(x)?;
    Ok(FoTerm::Fun(f, args))
}

fn two(alloc: Global, f: u64, x: FoTerm, y: FoTerm) -> Result<FoTerm, NoMemory> {
    let mut args = Rows::begin(alloc);
    args.push(x)?;
    args.push(y)?;
    Ok(FoTerm::Fun(f, args))
}

fn unit_clause(alloc: Global, positive: bool, atom: Atom) -> Result<Clause, NoMemory> {
    let mut literals = Rows::begin(alloc);
    literals.push(Literal { positive, atom })?;
    Ok(Clause { literals })
}

/// `1 * x = x`
fn unit_law(alloc: Global) -> Result<Clause, NoMemory> {
    let left = two(alloc, TIMES, constant(alloc, UNIT), FoTerm::Var(0))?;
    unit_clause(alloc, true, Atom::Eq(left, FoTerm::Var(0)))
}

/// `x' * x = 1`
fn inverse_law(alloc: Global) -> Result<Clause, NoMemory> {
    let inverse = one(alloc, INVERSE, FoTerm::Var(0))?;
    let left = two(alloc, TIMES, inverse, FoTerm::Var(0))?;
    unit_clause(alloc, true, Atom::Eq(left, constant(alloc, UNIT)))
}

/// `(x * y) * z`
fn left_product(alloc: Global) -> Result<FoTerm, NoMemory> {
    let inner = two(alloc, TIMES, FoTerm::Var(0), FoTerm::Var(1))?;
    two(alloc, TIMES, inner, FoTerm::Var(2))
}

/// `x * (y * z)`
fn right_product(alloc: Global) -> Result<FoTerm, NoMemory> {
    let inner = two(alloc, TIMES, FoTerm::Var(1), FoTerm::Var(2))?;
    two(alloc, TIMES, FoTerm::Var(0), inner)
}

/// `(x * y) * z = x * (y * z)`
fn associative_law(alloc: Global) -> Result<Clause, NoMemory> {
    let left = left_product(alloc)?;
    let right = right_product(alloc)?;
    unit_clause(alloc, true, Atom::Eq(left, right))
}

/// `a * b` for two constants
fn product(alloc: Global, a: u64, b: u64) -> Result<FoTerm, NoMemory> {
    two(alloc, TIMES, constant(alloc, a), constant(alloc, b))
}

/// `~(a * b = b * a)`
fn noncommuting(alloc: Global) -> Result<Clause, NoMemory> {
    let left = product(alloc, FIRST_CONSTANT, FIRST_CONSTANT + 1)?;
    let right = product(alloc, FIRST_CONSTANT + 1, FIRST_CONSTANT)?;
    unit_clause(alloc, false, Atom::Eq(left, right))
}

/// The axioms of groups, and two elements that don't commute.
pub fn group(alloc: Global) -> Result<Rows<Clause>, NoMemory> {
    let mut inputs = Rows::begin(alloc);
    inputs.push(unit_law(alloc)?)?;
    inputs.push(inverse_law(alloc)?)?;
    inputs.push(associative_law(alloc)?)?;
    inputs.push(noncommuting(alloc)?)?;
    Ok(inputs)
}

fn before(alloc: Global, x: FoTerm, y: FoTerm) -> Result<Atom, NoMemory> {
    Ok(Atom::Holds(two(alloc, BEFORE, x, y)?))
}

/// The literal that one variable is, or isn't, before another.
fn related(alloc: Global, positive: bool, x: u64, y: u64) -> Result<Literal, NoMemory> {
    let atom = before(alloc, FoTerm::Var(x), FoTerm::Var(y))?;
    Ok(Literal { positive, atom })
}

/// `x < y` and `y < z` give `x < z`.
fn transitive_law(alloc: Global) -> Result<Clause, NoMemory> {
    let mut literals = Rows::begin(alloc);
    literals.push(related(alloc, false, 0, 1)?)?;
    literals.push(related(alloc, false, 1, 2)?)?;
    literals.push(related(alloc, true, 0, 2)?)?;
    Ok(Clause { literals })
}

/// A transitive relation over a chain of constants, and that the last isn't before the first.
pub fn order(alloc: Global, size: u32) -> Result<Rows<Clause>, NoMemory> {
    let mut inputs = Rows::begin(alloc);
    inputs.push(transitive_law(alloc)?)?;
    for n in 0..size {
        let x = constant(alloc, FIRST_CONSTANT + n as u64);
        let y = constant(alloc, FIRST_CONSTANT + n as u64 + 1);
        inputs.push(unit_clause(alloc, true, before(alloc, x, y)?)?)?;
    }
    let first = constant(alloc, FIRST_CONSTANT);
    let last = constant(alloc, FIRST_CONSTANT + size as u64);
    inputs.push(unit_clause(alloc, false, before(alloc, last, first)?)?)?;
    Ok(inputs)
}

/// The literal that one term is, or isn't, before another.
fn compared(alloc: Global, positive: bool, x: FoTerm, y: FoTerm) -> Result<Literal, NoMemory> {
    let atom = before(alloc, x, y)?;
    Ok(Literal { positive, atom })
}

/// The constant with this number.
fn numbered(alloc: Global, n: u32) -> FoTerm {
    constant(alloc, FIRST_CONSTANT + n as u64)
}

/// From `x` before constant n to `x` before constant n + 1.
fn step_up(alloc: Global, n: u32) -> Result<Clause, NoMemory> {
    let from = numbered(alloc, n);
    let to = constant(alloc, FIRST_CONSTANT + n as u64 + 1);
    let mut literals = Rows::begin(alloc);
    literals.push(compared(alloc, false, FoTerm::Var(0), from)?)?;
    literals.push(compared(alloc, true, FoTerm::Var(0), to)?)?;
    Ok(Clause { literals })
}

/// From constant n + 1 before `x` to constant n before `x`.
fn step_down(alloc: Global, n: u32) -> Result<Clause, NoMemory> {
    let from = constant(alloc, FIRST_CONSTANT + n as u64 + 1);
    let to = numbered(alloc, n);
    let mut literals = Rows::begin(alloc);
    literals.push(compared(alloc, false, from, FoTerm::Var(0))?)?;
    literals.push(compared(alloc, true, to, FoTerm::Var(0))?)?;
    Ok(Clause { literals })
}

/// Steps on both sides of a relation over `size` constants, with one pair in the middle: all pairs around it follow.
pub fn ladder(alloc: Global, size: u32) -> Result<Rows<Clause>, NoMemory> {
    let mut inputs = Rows::begin(alloc);
    for n in 0..size {
        inputs.push(step_up(alloc, n)?)?;
        inputs.push(step_down(alloc, n)?)?;
    }
    let low = numbered(alloc, size / 2);
    let high = numbered(alloc, size / 2);
    inputs.push(unit_clause(alloc, true, before(alloc, low, high)?)?)?;
    Ok(inputs)
}
