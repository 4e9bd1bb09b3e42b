ghost use Rattle.std.specs.Prelude.{◌≡◌, ◌+◌, map, max, IfOk};
ghost use Rattle.std.specs.List.{concat};
ghost use Rattle.fo_terms.specs.Substitution.{var, put, put_atom, put_literals};
ghost use Rattle.fo_terms.specs.Normal.{variables_of, literal_variables, clause_variables};
ghost use Rattle.fo_infer.specs.Inferences.{above_all, renamed_apart};

use fo_terms::{Atom, Clause, FoTerm, Literal};
use std::alloc::Global;
use text_kit::{NoMemory, Rows};

/// The least number above all variables and the given one.
#[cycle(rising)]
fn above(t: &FoTerm, floor: u64) -> Result<u64, NoMemory>
    ensures { IfOk result (λ n. n ≡ max floor (above_all (variables_of t.now))) }
{
    match t {
        FoTerm::Var(x) => match x.checked_add(1) {
            None => Err(NoMemory),
            Some(next) => Ok(floor.max(next)),
        },
        FoTerm::Fun(_, args) => {
            let n = above_terms(args.as_slice(), floor)?;
            Ok(n)
        }
    }
}

#[cycle(rising)]
fn above_terms(terms: &[FoTerm], floor: u64) -> Result<u64, NoMemory>
    ensures { IfOk result (λ n. n ≡ max floor (above_all (concat (map variables_of terms.now)))) }
{
    let mut n = floor;
    for t in terms {
        n = above(t, n)?;
    }
    Ok(n)
}

fn above_literal(l: &Literal, floor: u64) -> Result<u64, NoMemory>
    ensures { IfOk result (λ n. n ≡ max floor (above_all (literal_variables l.now))) }
{
    match &l.atom {
        Atom::Holds(t) => {
            let n = above(t, floor)?;
            Ok(n)
        }
        Atom::Eq(s, t) => {
            let m = above(s, floor)?;
            let n = above(t, m)?;
            Ok(n)
        }
    }
}

/// The least number above all variables of the literals.
///
/// Where that passes `u64::MAX`, the answer is `NoMemory`.
pub fn above_literals(literals: &[Literal]) -> Result<u64, NoMemory>
    ensures { IfOk result (λ n. n ≡ above_all (clause_variables literals.now)) }
{
    let mut n = 0;
    for l in literals {
        n = above_literal(l, n)?;
    }
    Ok(n)
}

#[cycle(shifting)]
fn shift(alloc: Global, by: u64, t: &FoTerm) -> Result<FoTerm, NoMemory>
    ensures { IfOk result (λ s. s ≡ put (λ x. var (x + by)) t.now) }
{
    match t {
        FoTerm::Var(x) => match x.checked_add(by) {
            None => Err(NoMemory),
            Some(y) => Ok(FoTerm::Var(y)),
        },
        FoTerm::Fun(f, args) => Ok(FoTerm::Fun(*f, shift_all(alloc, by, args.as_slice())?)),
    }
}

#[cycle(shifting)]
fn shift_all(alloc: Global, by: u64, terms: &[FoTerm]) -> Result<Rows<FoTerm>, NoMemory>
    ensures { IfOk result (λ ts. ts ≡ map (put (λ x. var (x + by))) terms.now) }
{
    let mut out = Rows::begin(alloc);
    for t in terms {
        out.push(shift(alloc, by, t)?)?;
    }
    Ok(out)
}

fn shift_atom(alloc: Global, by: u64, a: &Atom) -> Result<Atom, NoMemory>
    ensures { IfOk result (λ b. b ≡ put_atom (λ x. var (x + by)) a.now) }
{
    match a {
        Atom::Holds(t) => Ok(Atom::Holds(shift(alloc, by, t)?)),
        Atom::Eq(s, t) => Ok(Atom::Eq(shift(alloc, by, s)?, shift(alloc, by, t)?)),
    }
}

/// The literals with each variable raised by that number. Where one passes `u64::MAX`, the answer is `NoMemory`.
pub fn raised(alloc: Global, by: u64, literals: &[Literal]) -> Result<Rows<Literal>, NoMemory>
    ensures { IfOk result (λ ls. ls ≡ put_literals (λ x. var (x + by)) literals.now) }
{
    let mut out = Rows::begin(alloc);
    for l in literals {
        out.push(Literal {
            positive: l.positive,
            atom: shift_atom(alloc, by, &l.atom)?,
        })?;
    }
    Ok(out)
}

/// The right clause's literals with their variables renamed apart from the left one's.
///
/// Each variable grows by the least number above those of the left clause. Where that passes `u64::MAX`, the answer
/// is `NoMemory`; clauses in normal form never come near.
pub fn renamed(alloc: Global, p: &Clause, q: &Clause) -> Result<Rows<Literal>, NoMemory>
    ensures { IfOk result (λ ls. ls ≡ renamed_apart p.now q.now) }
{
    let by = above_literals(p.literals.as_slice())?;
    let apart = raised(alloc, by, q.literals.as_slice())?;
    Ok(apart)
}
