use hol_kernel::{Log, Step, StepFault, ThmId, checked};
use hol_terms::{Env, Konst, Sig, Term, Ty, TypeFault, put_together, same};
use kernel_rules::{apply, lambda};
use std::alloc::Global;
use std::test::Fail;
use text_kit::{NoMemory, Rows};

/// A step, and the sequent that the rules give for it behind the accepted steps before it, or that they give none.
///
/// The sequent is its conclusion and then its hypotheses, each with its parts before what is made of them: `p`, `q`, `a`, `b`, `r` are the constants, `x` the variable, `0` the innermost bound variable, `T` and `F` the
/// truth values, `~`, `&`, `|`, `>` the connectives, `=` equality of individuals, `e` of truth values, `f` of functions of
/// individuals, `A`, `E`, `C` the quantifiers and choice over individuals, `.` application, `L` a lambda over individuals.
#[derive(Drop)]
struct Case {
    step: Step,
    wanted: &'static [u8],
}

#[tactic(none)]
fn put(cases: &mut Rows<Case>, wanted: &'static [u8], step: Step) -> Result<(), NoMemory> {
    cases.push(Case { step, wanted })
}

/// `p`, `q`, `a`, `b`, `r` and a constant that isn't there.
#[tactic(none)]
fn named(number: u32) -> Term {
    Term::Con(Konst::Named(number))
}

#[tactic(none)]
fn p() -> Term {
    named(0)
}

#[tactic(none)]
fn q() -> Term {
    named(1)
}

#[tactic(none)]
fn a() -> Term {
    named(2)
}

#[tactic(none)]
fn b() -> Term {
    named(3)
}

/// A predicate of individuals.
#[tactic(none)]
fn r() -> Term {
    named(4)
}

/// The type of individuals.
#[tactic(none)]
fn individuals() -> Ty {
    Ty::Base(1)
}

/// A variable for individuals.
#[tactic(none)]
fn x() -> Term {
    Term::Free(0, individuals())
}

#[tactic(none)]
fn unary(alloc: Global, k: Konst, s: Term) -> Result<Term, NoMemory> {
    apply(alloc, Term::Con(k), s)
}

#[tactic(none)]
fn binary(alloc: Global, k: Konst, s: Term, t: Term) -> Result<Term, NoMemory> {
    apply(alloc, unary(alloc, k, s)?, t)
}

/// `s = t` for individuals.
#[tactic(none)]
fn equals(alloc: Global, s: Term, t: Term) -> Result<Term, NoMemory> {
    binary(alloc, Konst::Eq(individuals()), s, t)
}

#[tactic(none)]
fn not_p(alloc: Global) -> Result<Term, NoMemory> {
    unary(alloc, Konst::Not, p())
}

/// `\x. x = x`
#[tactic(none)]
fn reflexive(alloc: Global) -> Result<Term, NoMemory> {
    lambda(
        alloc,
        individuals(),
        equals(alloc, Term::Bound(0), Term::Bound(0))?,
    )
}

#[tactic(none)]
fn constants(alloc: Global) -> Result<Rows<Ty>, NoMemory> {
    let mut consts = Rows::begin(alloc);
    consts.push(Ty::Base(0))?;
    consts.push(Ty::Base(0))?;
    consts.push(individuals())?;
    consts.push(individuals())?;
    consts.push(hol_terms::arrow(alloc, individuals(), Ty::Base(0))?)?;
    Ok(consts)
}

fn auxiliary(alloc: Global) -> Result<Rows<Ty>, NoMemory> {
    let mut aux = Rows::begin(alloc);
    aux.push(Ty::Base(0))?;
    Ok(aux)
}

fn signature(alloc: Global) -> Result<Sig, NoMemory> {
    let consts = constants(alloc)?;
    Ok(Sig {
        types: 2,
        consts,
        aux: auxiliary(alloc)?,
    })
}

/// `p` and `p ==> q`.
#[tactic(none)]
fn facts(alloc: Global) -> Result<Rows<Term>, NoMemory> {
    let mut facts = Rows::begin(alloc);
    facts.push(p())?;
    facts.push(binary(alloc, Konst::Imp, p(), q())?)?;
    Ok(facts)
}

/// The goal `q` over these facts.
#[tactic(none)]
fn environment(alloc: Global) -> Result<Env, TypeFault> {
    let sig = signature(alloc)?;
    put_together(alloc, sig, facts(alloc)?, q())
}

/// Steps 0 to 4: facts, assumptions, implications.
#[tactic(none)]
fn implications(alloc: Global, cases: &mut Rows<Case>) -> Result<(), NoMemory> {
    put(cases, b"p", Step::Fact(0))?;
    put(cases, b"pq>", Step::Fact(1))?;
    put(cases, b"", Step::Fact(2))?;
    put(cases, b"q", Step::ImpElim(ThmId(1), ThmId(0)))?;
    put(cases, b"", Step::ImpElim(ThmId(0), ThmId(1)))?;
    put(cases, b"", Step::ImpElim(ThmId(1), ThmId(1)))?;
    put(cases, b"", Step::ImpElim(ThmId(1), ThmId(3)))?;
    put(cases, b"p p", Step::Assume(p()))?;
    put(cases, b"", Step::Assume(a()))?;
    put(cases, b"", Step::Assume(named(9)))?;
    put(cases, b"", Step::Assume(Term::Bound(0)))?;
    put(cases, b"", Step::Assume(Term::Con(Konst::Aux(0))))?;
    put(cases, b"pp>", Step::ImpIntro(p(), ThmId(3)))?;
    put(cases, b"", Step::ImpIntro(a(), ThmId(3)))?;
    put(cases, b"", Step::Iff(ThmId(1), ThmId(4)))
}

/// Steps 5 to 10: conjunctions and disjunctions.
#[tactic(none)]
fn pairs(cases: &mut Rows<Case>) -> Result<(), NoMemory> {
    put(cases, b"pq&", Step::AndIntro(ThmId(0), ThmId(2)))?;
    put(cases, b"", Step::AndIntro(ThmId(0), ThmId(6)))?;
    put(cases, b"p", Step::AndLeft(ThmId(5)))?;
    put(cases, b"", Step::AndLeft(ThmId(0)))?;
    put(cases, b"q", Step::AndRight(ThmId(5)))?;
    put(cases, b"", Step::AndRight(ThmId(1)))?;
    put(cases, b"pq|", Step::OrLeft(q(), ThmId(0)))?;
    put(cases, b"", Step::OrLeft(a(), ThmId(0)))?;
    put(cases, b"pq|", Step::OrRight(p(), ThmId(2)))?;
    put(cases, b"", Step::OrRight(a(), ThmId(2)))?;
    put(cases, b"q", Step::OrElim(ThmId(8), ThmId(2), ThmId(7)))?;
    put(cases, b"", Step::OrElim(ThmId(5), ThmId(2), ThmId(7)))?;
    put(cases, b"", Step::OrElim(ThmId(8), ThmId(2), ThmId(0)))
}

/// Steps 11 to 15: negations.
#[tactic(none)]
fn negations(alloc: Global, cases: &mut Rows<Case>) -> Result<(), NoMemory> {
    put(cases, b"p~ p~", Step::Assume(not_p(alloc)?))?;
    put(cases, b"F p~", Step::NotElim(ThmId(11), ThmId(0)))?;
    put(cases, b"", Step::NotElim(ThmId(0), ThmId(11)))?;
    put(cases, b"", Step::NotElim(ThmId(11), ThmId(2)))?;
    put(cases, b"p~~", Step::NotIntro(not_p(alloc)?, ThmId(12)))?;
    put(cases, b"", Step::NotIntro(not_p(alloc)?, ThmId(0)))?;
    put(cases, b"T", Step::TrueIntro)?;
    put(cases, b"p", Step::Classical(p(), ThmId(12)))?;
    put(cases, b"", Step::Classical(p(), ThmId(0)))
}

/// Steps 16 to 22: equations and quantifiers; step 19 has the variable in its hypothesis.
#[tactic(none)]
fn quantifiers(alloc: Global, cases: &mut Rows<Case>) -> Result<(), NoMemory> {
    put(cases, b"aa=", Step::Refl(a()))?;
    put(cases, b"", Step::Refl(Term::Bound(0)))?;
    put(cases, b"xx=", Step::Refl(x()))?;
    put(cases, b"00=LA", Step::AllIntro(0, individuals(), ThmId(17)))?;
    put(cases, b"", Step::AllIntro(0, Ty::Base(2), ThmId(17)))?;
    put(cases, b"xx= xx=", Step::Assume(equals(alloc, x(), x())?))?;
    put(cases, b"", Step::AllIntro(0, individuals(), ThmId(19)))?;
    put(cases, b"aa=", Step::AllElim(a(), ThmId(18)))?;
    put(cases, b"", Step::AllElim(p(), ThmId(18)))?;
    put(cases, b"", Step::AllElim(a(), ThmId(17)))?;
    put(
        cases,
        b"00=LE",
        Step::ExIntro(reflexive(alloc)?, a(), ThmId(20)),
    )?;
    put(cases, b"", Step::ExIntro(reflexive(alloc)?, b(), ThmId(20)))?;
    put(cases, b"00=LC00=LC=", Step::Choose(ThmId(21)))?;
    put(cases, b"", Step::Choose(ThmId(18)))
}

/// Steps 23 to 29: substitution, contraction, lambdas, instances.
#[tactic(none)]
fn replacements(alloc: Global, cases: &mut Rows<Case>) -> Result<(), NoMemory> {
    put(cases, b"ab= ab=", Step::Assume(equals(alloc, a(), b())?))?;
    put(cases, b"ra. ra.", Step::Assume(apply(alloc, r(), a())?))?;
    put(
        cases,
        b"rb. ab= ra.",
        Step::Subst(r(), ThmId(23), ThmId(24)),
    )?;
    put(
        cases,
        b"",
        Step::Subst(reflexive(alloc)?, ThmId(23), ThmId(24)),
    )?;
    put(cases, b"", Step::Subst(r(), ThmId(24), ThmId(24)))?;
    put(
        cases,
        b"00=La.aa=e",
        Step::Beta(apply(alloc, reflexive(alloc)?, a())?),
    )?;
    put(cases, b"", Step::Beta(apply(alloc, r(), a())?))?;
    put(cases, b"0L0Lf", Step::Abs(0, individuals(), ThmId(17)))?;
    put(cases, b"", Step::Abs(0, individuals(), ThmId(19)))?;
    put(cases, b"", Step::Abs(0, individuals(), ThmId(0)))?;
    put(cases, b"ppe", Step::Iff(ThmId(4), ThmId(4)))?;
    put(
        cases,
        b"aa= aa=",
        Step::Inst(0, individuals(), a(), ThmId(19)),
    )?;
    put(cases, b"", Step::Inst(0, individuals(), p(), ThmId(19)))
}

fn table(alloc: Global) -> Result<Rows<Case>, NoMemory> {
    let mut cases = Rows::begin(alloc);
    implications(alloc, &mut cases)?;
    pairs(&mut cases)?;
    negations(alloc, &mut cases)?;
    quantifiers(alloc, &mut cases)?;
    replacements(alloc, &mut cases)?;
    Ok(cases)
}

/// Takes the last term of a list.
fn taken(terms: &mut Rows<Term>) -> Result<Term, NoMemory> {
    match terms.pop() {
        Some(t) => Ok(t),
        None => Err(NoMemory),
    }
}

#[tactic(none)]
fn put_unary(alloc: Global, terms: &mut Rows<Term>, k: Konst) -> Result<(), NoMemory> {
    let of = taken(terms)?;
    terms.push(unary(alloc, k, of)?)
}

#[tactic(none)]
fn put_binary(alloc: Global, terms: &mut Rows<Term>, k: Konst) -> Result<(), NoMemory> {
    let right = taken(terms)?;
    let left = taken(terms)?;
    terms.push(binary(alloc, k, left, right)?)
}

#[tactic(none)]
fn put_application(alloc: Global, terms: &mut Rows<Term>) -> Result<(), NoMemory> {
    let argument = taken(terms)?;
    let function = taken(terms)?;
    terms.push(apply(alloc, function, argument)?)
}

#[tactic(none)]
fn put_lambda(alloc: Global, terms: &mut Rows<Term>) -> Result<(), NoMemory> {
    let body = taken(terms)?;
    terms.push(lambda(alloc, individuals(), body)?)
}

#[tactic(none)]
fn put_function_equality(alloc: Global, terms: &mut Rows<Term>) -> Result<(), NoMemory> {
    let functions = hol_terms::arrow(alloc, individuals(), individuals())?;
    put_binary(alloc, terms, Konst::Eq(functions))
}

/// Puts what a symbol stands for at the end of the terms, in place of its parts.
#[tactic(none)]
fn put_symbol(alloc: Global, terms: &mut Rows<Term>, symbol: u8) -> Result<(), NoMemory> {
    match symbol {
        b'p' => terms.push(p()),
        b'q' => terms.push(q()),
        b'a' => terms.push(a()),
        b'b' => terms.push(b()),
        b'r' => terms.push(r()),
        b'x' => terms.push(x()),
        b'0' => terms.push(Term::Bound(0)),
        b'T' => terms.push(Term::Con(Konst::True)),
        b'F' => terms.push(Term::Con(Konst::False)),
        b'~' => put_unary(alloc, terms, Konst::Not),
        b'&' => put_binary(alloc, terms, Konst::And),
        b'|' => put_binary(alloc, terms, Konst::Or),
        b'>' => put_binary(alloc, terms, Konst::Imp),
        b'=' => put_binary(alloc, terms, Konst::Eq(individuals())),
        b'e' => put_binary(alloc, terms, Konst::Eq(Ty::Base(0))),
        b'f' => put_function_equality(alloc, terms),
        b'A' => put_unary(alloc, terms, Konst::All(individuals())),
        b'E' => put_unary(alloc, terms, Konst::Ex(individuals())),
        b'C' => put_unary(alloc, terms, Konst::Eps(individuals())),
        b'.' => put_application(alloc, terms),
        b'L' => put_lambda(alloc, terms),
        _ => Ok(()),
    }
}

fn written(alloc: Global, text: &[u8]) -> Result<Rows<Term>, NoMemory> {
    let mut terms = Rows::begin(alloc);
    for symbol in text {
        put_symbol(alloc, &mut terms, *symbol)?;
    }
    Ok(terms)
}

/// Whether the theorem has the first term as its conclusion and the others, and no more, as its hypotheses.
fn says(log: &Log, th: ThmId, wanted: &[Term]) -> bool {
    if th.0 >= log.len() {
        return false;
    }
    match wanted {
        [] => false,
        [concl, hyps @ ..] => {
            let held = log.hypotheses(th);
            same(log.conclusion(th), concl)
                && held.len() == hyps.len() as u64
                && hyps.iter().all(|t| held.holds(t))
        }
    }
}

#[tactic(none)]
fn says_written(
    alloc: Global,
    log: &Log,
    th: ThmId,
    wanted: &'static [u8],
) -> Result<bool, NoMemory> {
    let terms = written(alloc, wanted)?;
    Ok(says(log, th, terms.as_slice()))
}

/// Whether a step is answered as the table says, with the next place.
#[tactic(none)]
fn agrees(alloc: Global, log: &mut Log, case: Case) -> Result<bool, NoMemory> {
    let next = log.len();
    let Case { step, wanted } = case;
    match log.try_step(step) {
        Ok(id) => Ok(id.0 == next && says_written(alloc, &*log, id, wanted)?),
        Err(StepFault::Refused { at }) => Ok(wanted.is_empty() && at == next),
        Err(StepFault::NoMemory) => Err(NoMemory),
    }
}

#[tactic(none)]
fn all_agree(alloc: Global, log: &mut Log, cases: Rows<Case>) -> Result<bool, NoMemory> {
    let mut good = true;
    for case in cases.into_vec() {
        good = agrees(alloc, log, case)? && good;
    }
    Ok(good)
}

#[tactic(none)]
fn table_is_told(alloc: Global, env: &Env) -> Result<bool, NoMemory> {
    let mut log = Log::begin(alloc, env);
    all_agree(alloc, &mut log, table(alloc)?)
}

#[tactic(none)]
fn each_rule_is_told(alloc: Global) -> Result<bool, TypeFault> {
    let env = environment(alloc)?;
    let told = table_is_told(alloc, &env);
    drop(env);
    Ok(told?)
}

#[test]
fn each_rule_gives_its_sequent_or_refuses(rt: HostRuntime) -> Result<(), Fail> {
    let good = each_rule_is_told(rt.alloc())?;
    assert!(rt; good);
    Ok(())
}

/// `p`, `p ==> q`, and then `q` from these places.
fn modus_ponens(alloc: Global, ab: u64, a: u64) -> Result<Rows<Step>, NoMemory> {
    let mut steps = Rows::begin(alloc);
    steps.push(Step::Fact(0))?;
    steps.push(Step::Fact(1))?;
    steps.push(Step::ImpElim(ThmId(ab), ThmId(a)))?;
    Ok(steps)
}

/// Whether the steps are checked, prove the goal, and are handed out again.
fn is_proof(alloc: Global, env: &Env, steps: Rows<Step>) -> bool {
    match checked(alloc, env, steps) {
        Ok(log) => log.env().sig.types == 2
            && log.steps().len() == 3
            && log.proves()
            && log.into_steps().len() == 3,
        Err(_) => false,
    }
}

#[tactic(none)]
fn is_refused_at(alloc: Global, env: &Env, steps: Rows<Step>, place: u64) -> bool {
    match checked(alloc, env, steps) {
        Ok(_) => false,
        Err(StepFault::Refused { at }) => at == place,
        Err(StepFault::NoMemory) => false,
    }
}

#[tactic(none)]
fn places_are_told(alloc: Global, env: &Env) -> Result<bool, NoMemory> {
    let proved = is_proof(alloc, env, modus_ponens(alloc, 1, 0)?);
    Ok(proved && is_refused_at(alloc, env, modus_ponens(alloc, 0, 1)?, 2))
}

#[tactic(none)]
fn proofs_are_told(alloc: Global) -> Result<bool, TypeFault> {
    let env = environment(alloc)?;
    let told = places_are_told(alloc, &env);
    drop(env);
    Ok(told?)
}

#[test]
fn steps_prove_the_goal(rt: HostRuntime) -> Result<(), Fail> {
    let good = proofs_are_told(rt.alloc())?;
    assert!(rt; good);
    Ok(())
}
