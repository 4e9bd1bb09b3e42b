ghost use Rattle.lambda_lift.specs.Standing.{Each, StandsAlone};

use hol_clausify::{Source, fact_clauses, goal_clauses};
use hol_kernel::Log;
use hol_terms::{Env, Konst, Sig, Term, Ty, TypeFault, arrow, put_together};
use kernel_rules::{
    apply, conjunction, disjunction, equation, existential, implication, is_falsum, lambda,
    negation, universal,
};
use lambda_lift::Table;
use std::alloc::Global;
use std::test::Fail;
use text_kit::{NoMemory, Rows};

fn q() -> Term {
    Term::Con(Konst::Named(1))
}

fn r() -> Term {
    Term::Con(Konst::Named(2))
}

/// `p : nat -> bool`, `q : bool`, `r : bool`, and `h : (nat -> nat) -> bool`
fn signature(alloc: Global) -> Result<Sig, NoMemory> {
    let mut consts = Rows::begin(alloc);
    consts.push(arrow(alloc, Ty::Base(1), Ty::Base(0))?)?;
    consts.push(Ty::Base(0))?;
    consts.push(Ty::Base(0))?;
    let function = arrow(alloc, Ty::Base(1), Ty::Base(1))?;
    consts.push(arrow(alloc, function, Ty::Base(0))?)?;
    Ok(Sig {
        types: 2,
        consts,
        aux: Rows::begin(alloc),
    })
}

/// `\x. p x`
fn p(alloc: Global) -> Result<Term, NoMemory> {
    let body = apply(alloc, Term::Con(Konst::Named(0)), Term::Bound(0))?;
    lambda(alloc, Ty::Base(1), body)
}

/// `?x. p x`
fn some_p(alloc: Global) -> Result<Term, NoMemory> {
    existential(alloc, Ty::Base(1), &p(alloc)?)
}

/// `!x. p x`
fn every_p(alloc: Global) -> Result<Term, NoMemory> {
    universal(alloc, Ty::Base(1), &p(alloc)?)
}

/// `!x. p x ==> q`
fn every_p_has_q(alloc: Global) -> Result<Term, NoMemory> {
    let given = apply(alloc, Term::Con(Konst::Named(0)), Term::Bound(0))?;
    let body = implication(alloc, &given, &q())?;
    universal(alloc, Ty::Base(1), &lambda(alloc, Ty::Base(1), body)?)
}

/// `q = r`
fn alike(alloc: Global) -> Result<Term, NoMemory> {
    equation(alloc, Ty::Base(0), &q(), &r())
}

/// `~r`
fn not_r(alloc: Global) -> Result<Term, NoMemory> {
    negation(alloc, &r())
}

/// `~(q ==> ~r)`
fn not_without(alloc: Global) -> Result<Term, NoMemory> {
    let without = implication(alloc, &q(), &not_r(alloc)?)?;
    negation(alloc, &without)
}

/// `(q = r) & ~(q ==> ~r)`
fn connected(alloc: Global) -> Result<Term, NoMemory> {
    let left = alike(alloc)?;
    conjunction(alloc, &left, &not_without(alloc)?)
}

/// `~(?x. p x) | ~(!x. p x)`
fn quantified(alloc: Global) -> Result<Term, NoMemory> {
    let none = negation(alloc, &some_p(alloc)?)?;
    disjunction(alloc, &none, &negation(alloc, &every_p(alloc)?)?)
}

/// `h (\x. x)`
fn lifted(alloc: Global) -> Result<Term, NoMemory> {
    let identity = lambda(alloc, Ty::Base(1), Term::Bound(0))?;
    apply(alloc, Term::Con(Konst::Named(3)), identity)
}

/// These facts and the goal `q`.
fn environment(alloc: Global) -> Result<Env, TypeFault> {
    let mut facts = Rows::begin(alloc);
    facts.push(some_p(alloc)?)?;
    facts.push(every_p_has_q(alloc)?)?;
    facts.push(connected(alloc)?)?;
    facts.push(quantified(alloc)?)?;
    facts.push(lifted(alloc)?)?;
    put_together(alloc, signature(alloc)?, facts, q())
}

/// Whether each theorem says `false`, under one hypothesis for each literal and so many more.
fn are_refutations(log: &Log, sources: &[Source], more: u64) -> bool {
    match sources {
        [] => true,
        [source, rest @ ..] => {
            if source.thm.0 >= log.len() {
                return false;
            }
            let wanted = (source.literals.len() as u64).checked_add(more);
            is_falsum(log.conclusion(source.thm))
                && wanted == Some(log.hypotheses(source.thm).len())
                && are_refutations(log, rest, more)
        }
    }
}

/// Whether the fact has so many clauses, each with its theorem.
fn has_clauses(
    alloc: Global,
    log: &mut Log,
    table: &mut Table,
    fact: u32,
    clauses: usize,
) -> Result<bool, NoMemory>
    requires { Each (StandsAlone log.old.env.sig) table.old }
{
    if fact as usize >= log.env().facts.len() {
        return Ok(false);
    }
    match fact_clauses(alloc, log, table, fact) {
        Ok(sources) => Ok(
            sources.len() == clauses && are_refutations(&*log, sources.as_slice(), 0),
        ),
        Err(_) => Err(NoMemory),
    }
}

/// Whether each fact has as many clauses as its connectives ask for, and the goal its one.
fn all_have_clauses(alloc: Global, log: &mut Log) -> Result<bool, NoMemory> {
    for (fact, clauses) in [(0, 1), (1, 1), (2, 4), (3, 1), (4, 2)] {
        let mut table = Table::begin(alloc);
        if !has_clauses(alloc, log, &mut table, fact, clauses)? {
            return Ok(false);
        }
    }
    let mut table = Table::begin(alloc);
    match goal_clauses(alloc, log, &mut table) {
        Ok(sources) => Ok(sources.len() == 1 && are_refutations(&*log, sources.as_slice(), 1)),
        Err(_) => Err(NoMemory),
    }
}

fn log_has_clauses(alloc: Global, env: &Env) -> Result<bool, NoMemory> {
    let mut log = Log::begin(alloc, env);
    all_have_clauses(alloc, &mut log)
}

fn clauses_are_told(alloc: Global) -> Result<bool, TypeFault> {
    let env = environment(alloc)?;
    Ok(log_has_clauses(alloc, &env)?)
}

#[test]
fn clauses_have_theorems(rt: HostRuntime) -> Result<(), Fail> {
    let good = clauses_are_told(rt.alloc())?;
    assert!(rt; good);
    Ok(())
}
