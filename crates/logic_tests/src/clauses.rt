use formula_clauses::{Clauses, TypedLiteral, clausify, fits};
use hol_terms::{Konst, Sig, Term, Ty, arrow, is_sentence, same};
use kernel_rules::{apply, conjunction, disjunction, existential, implication, lambda, universal};
use lambda_lift::Table;
use std::alloc::Global;
use std::test::Fail;
use text_kit::{NoMemory, Rows};

/// Eight constants `p1` to `p8`, eight `q1` to `q8`, and `r`, all bool; then `p : nat -> bool`.
fn signature(alloc: Global) -> Result<Sig, NoMemory> {
    let mut consts = Rows::begin(alloc);
    for _ in 0..17 {
        consts.push(Ty::Base(0))?;
    }
    consts.push(arrow(alloc, Ty::Base(1), Ty::Base(0))?)?;
    Ok(Sig {
        types: 2,
        consts,
        aux: Rows::begin(alloc),
    })
}

/// The constants from this one to the last of its eight, joined.
fn eight(alloc: Global, first: u32, joined: Joined) -> Result<Term, NoMemory> {
    let mut all = Term::Con(Konst::Named(first));
    for k in 1..8 {
        all = joined.term(
            alloc,
            &all,
            &Term::Con(Konst::Named(first.saturating_add(k))),
        )?;
    }
    Ok(all)
}

#[derive(Clone, Copy)]
enum Joined {
    And,
    Or,
}

impl Joined {
    fn term(self, alloc: Global, a: &Term, b: &Term) -> Result<Term, NoMemory> {
        match self {
            Joined::And => conjunction(alloc, a, b),
            Joined::Or => disjunction(alloc, a, b),
        }
    }

    fn other(self) -> Joined {
        match self {
            Joined::And => Joined::Or,
            Joined::Or => Joined::And,
        }
    }
}

/// `(p1 & .. & p8) | (q1 & .. & q8)`, or the same with the two signs exchanged.
fn big(alloc: Global, inner: Joined) -> Result<Term, NoMemory> {
    inner
        .other()
        .term(alloc, &eight(alloc, 0, inner)?, &eight(alloc, 8, inner)?)
}

/// The same and one more.
fn huge(alloc: Global, inner: Joined) -> Result<Term, NoMemory> {
    inner.term(alloc, &big(alloc, inner)?, &Term::Con(Konst::Named(16)))
}

/// `p x`
fn of_variable(alloc: Global) -> Result<Term, NoMemory> {
    apply(alloc, Term::Con(Konst::Named(17)), Term::Bound(0))
}

/// `?x. p x`
fn some_p(alloc: Global) -> Result<Term, NoMemory> {
    existential(
        alloc,
        Ty::Base(1),
        &lambda(alloc, Ty::Base(1), of_variable(alloc)?)?,
    )
}

/// `!x. p x ==> r`
fn every_p(alloc: Global) -> Result<Term, NoMemory> {
    let body = implication(alloc, &of_variable(alloc)?, &Term::Con(Konst::Named(16)))?;
    universal(alloc, Ty::Base(1), &lambda(alloc, Ty::Base(1), body)?)
}

/// Whether the sentence fits, which is looked at first.
fn is_fitting(alloc: Global, t: Result<Term, NoMemory>, goal: bool) -> Result<bool, NoMemory> {
    let term = t?;
    let sig = signature(alloc)?;
    if !is_sentence(alloc, &sig, &term)? {
        return Err(NoMemory);
    }
    fits(alloc, &sig, &term, goal)
}

#[test]
fn sixty_four_clauses_fit(rt: HostRuntime) -> Result<(), Fail> {
    let alloc = rt.alloc();
    let fact = is_fitting(alloc, big(alloc, Joined::And), false)?;
    let larger = is_fitting(alloc, huge(alloc, Joined::And), false)?;
    assert!(rt; fact && !larger);
    let goal = is_fitting(alloc, big(alloc, Joined::Or), true)?;
    let larger_goal = is_fitting(alloc, huge(alloc, Joined::Or), true)?;
    assert!(rt; goal && !larger_goal);
    Ok(())
}

/// The clauses of a sentence as a fact, over this table.
fn clauses(
    alloc: Global,
    table: &mut Table,
    t: Result<Term, NoMemory>,
) -> Result<Clauses, NoMemory> {
    let term = t?;
    let sig = signature(alloc)?;
    if !is_sentence(alloc, &sig, &term)? {
        return Err(NoMemory);
    }
    match clausify(alloc, &sig, table, &term, false) {
        Ok(cs) => Ok(cs),
        Err(_) => Err(NoMemory),
    }
}

/// `p t`
fn of_term(alloc: Global, t: Term) -> Result<Term, NoMemory> {
    apply(alloc, Term::Con(Konst::Named(17)), t)
}

fn is_literal(l: &TypedLiteral, positive: bool, wanted: Result<Term, NoMemory>) -> bool {
    match wanted {
        Ok(t) => l.positive == positive && same(&l.atom, &t),
        Err(_) => false,
    }
}

/// `p a0`, with `a0` for `@x. p x`
fn is_chosen(alloc: Global) -> Result<bool, NoMemory> {
    let mut table = Table::begin(alloc);
    let cs = clauses(alloc, &mut table, some_p(alloc))?;
    let entry = apply(
        alloc,
        Term::Con(Konst::Eps(Ty::Base(1))),
        lambda(alloc, Ty::Base(1), of_variable(alloc)?)?,
    )?;
    let value = Term::Con(Konst::Aux(0));
    Ok(
        table.entries().len() == 1
            && same(&table.entries().at(0).closed, &entry)
            && cs.len() == 1
            && cs.at(0).len() == 1
            && is_literal(cs.at(0).at(0), true, of_term(alloc, value)),
    )
}

/// `~ p x0 | r`
fn is_over_variable(alloc: Global) -> Result<bool, NoMemory> {
    let mut table = Table::begin(alloc);
    let cs = clauses(alloc, &mut table, every_p(alloc))?;
    let variable = Term::Free(0, Ty::Base(1));
    Ok(
        table.entries().len() == 0
            && cs.len() == 1
            && cs.at(0).len() == 2
            && is_literal(cs.at(0).at(0), false, of_term(alloc, variable))
            && is_literal(cs.at(0).at(1), true, Ok(Term::Con(Konst::Named(16)))),
    )
}

#[test]
fn clauses_are_made(rt: HostRuntime) -> Result<(), Fail> {
    let alloc = rt.alloc();
    let chosen = is_chosen(alloc)?;
    let over_variable = is_over_variable(alloc)?;
    assert!(rt; chosen && over_variable);
    Ok(())
}
