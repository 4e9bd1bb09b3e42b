ghost use Rattle.hol_terms.specs.Formulas.{IsFormula};

use hol_derived::{beta_expand, cases, contraction, cut, excluded_middle, replace_at, replaced};
use hol_kernel::{Log, Step, StepFault, ThmId, checked};
use hol_terms::{Env, Konst, Sig, Term, Ty, TypeFault, arrow, copy, put_together, same};
use kernel_rules::{apply, is_equation, is_negation, lambda, left, right};
use std::alloc::Global;
use std::test::Fail;
use text_kit::{NoMemory, Rows};

#[tactic(none)]
fn p() -> Term {
    Term::Con(Konst::Named(0))
}

#[tactic(none)]
fn q() -> Term {
    Term::Con(Konst::Named(1))
}

#[tactic(none)]
fn zero() -> Term {
    Term::Con(Konst::Named(2))
}

#[tactic(none)]
fn suc() -> Term {
    Term::Con(Konst::Named(3))
}

/// A predicate of numbers.
#[tactic(none)]
fn r() -> Term {
    Term::Con(Konst::Named(4))
}

/// A predicate of functions on numbers.
#[tactic(none)]
fn s() -> Term {
    Term::Con(Konst::Named(5))
}

/// The type of numbers.
#[tactic(none)]
fn numbers() -> Ty {
    Ty::Base(1)
}

#[tactic(none)]
fn functions(alloc: Global) -> Result<Ty, NoMemory> {
    arrow(alloc, numbers(), numbers())
}

#[tactic(none)]
fn put_constants(alloc: Global, consts: &mut Rows<Ty>) -> Result<(), NoMemory> {
    consts.push(Ty::Base(0))?;
    consts.push(Ty::Base(0))?;
    consts.push(numbers())?;
    consts.push(functions(alloc)?)?;
    consts.push(arrow(alloc, numbers(), Ty::Base(0))?)?;
    consts.push(arrow(alloc, functions(alloc)?, Ty::Base(0))?)
}

fn signature(alloc: Global) -> Result<Sig, NoMemory> {
    let mut consts = Rows::begin(alloc);
    put_constants(alloc, &mut consts)?;
    Ok(Sig {
        types: 2,
        consts,
        aux: Rows::begin(alloc),
    })
}

/// `left k right`
#[tactic(none)]
fn binary(alloc: Global, k: Konst, left: Term, right: Term) -> Result<Term, NoMemory> {
    let applied = apply(alloc, Term::Con(k), left)?;
    apply(alloc, applied, right)
}

#[tactic(none)]
fn not(alloc: Global, t: Term) -> Result<Term, NoMemory> {
    apply(alloc, Term::Con(Konst::Not), t)
}

/// `one | ~other`
#[tactic(none)]
fn either(alloc: Global, one: Term, other: Term) -> Result<Term, NoMemory> {
    let denied = not(alloc, other)?;
    binary(alloc, Konst::Or, one, denied)
}

/// `p` and `p ==> q`.
#[tactic(none)]
fn facts(alloc: Global) -> Result<Rows<Term>, NoMemory> {
    let mut facts = Rows::begin(alloc);
    facts.push(p())?;
    facts.push(binary(alloc, Konst::Imp, p(), q())?)?;
    Ok(facts)
}

/// The goal `q` over these facts.
#[tactic(none)]
fn environment(alloc: Global) -> Result<Env, TypeFault> {
    let sig = signature(alloc)?;
    put_together(alloc, sig, facts(alloc)?, q())
}

/// `\x. suc x`
#[tactic(none)]
fn successor(alloc: Global) -> Result<Term, NoMemory> {
    lambda(alloc, numbers(), apply(alloc, suc(), Term::Bound(0))?)
}

/// `r (suc zero)`
#[tactic(none)]
fn of_one(alloc: Global) -> Result<Term, NoMemory> {
    let one = apply(alloc, suc(), zero())?;
    apply(alloc, r(), one)
}

/// `r ((\x. suc x) zero)`
#[tactic(none)]
fn of_redex(alloc: Global) -> Result<Term, NoMemory> {
    let successor = successor(alloc)?;
    let redex = apply(alloc, successor, zero())?;
    apply(alloc, r(), redex)
}

/// `s (\x. suc x)`
#[tactic(none)]
fn of_successor(alloc: Global) -> Result<Term, NoMemory> {
    let successor = successor(alloc)?;
    apply(alloc, s(), successor)
}

/// `s (\y. (\x. suc x) y)`
#[tactic(none)]
fn of_expansion(alloc: Global) -> Result<Term, NoMemory> {
    let successor = successor(alloc)?;
    let body = apply(alloc, successor, Term::Bound(0))?;
    let expansion = lambda(alloc, numbers(), body)?;
    apply(alloc, s(), expansion)
}

#[tactic(none)]
fn put(steps: &mut Rows<Step>, step: Step) -> Result<(), NoMemory> {
    steps.push(step)
}

/// Step 3 is `{p} : q`, step 6 is `{~p} : q`, step 7 is `{p = q} : p = q`.
#[tactic(none)]
fn put_premises(alloc: Global, steps: &mut Rows<Step>) -> Result<(), NoMemory> {
    put(steps, Step::Fact(0))?;
    put(steps, Step::Fact(1))?;
    put(steps, Step::Assume(p()))?;
    put(steps, Step::ImpElim(ThmId(1), ThmId(2)))?;
    put(steps, Step::Assume(not(alloc, p())?))?;
    put(steps, Step::NotElim(ThmId(4), ThmId(0)))?;
    put(steps, Step::Classical(q(), ThmId(5)))?;
    put(
        steps,
        Step::Assume(binary(alloc, Konst::Eq(Ty::Base(0)), p(), q())?),
    )
}

/// Steps 8 to 12 say what is wanted: `q`, `~q`, `p | ~p`, `q | ~p`, `p | ~q`.
#[tactic(none)]
fn put_wanted(alloc: Global, steps: &mut Rows<Step>) -> Result<(), NoMemory> {
    put(steps, Step::Assume(q()))?;
    put(steps, Step::Assume(not(alloc, q())?))?;
    put(steps, Step::Assume(either(alloc, p(), p())?))?;
    put(steps, Step::Assume(either(alloc, q(), p())?))?;
    put(steps, Step::Assume(either(alloc, p(), q())?))
}

/// Step 13 says what step 14 contracts to, step 15 what step 16 does.
#[tactic(none)]
fn put_redexes(alloc: Global, steps: &mut Rows<Step>) -> Result<(), NoMemory> {
    put(steps, Step::Assume(of_one(alloc)?))?;
    put(steps, Step::Assume(of_redex(alloc)?))?;
    put(steps, Step::Assume(of_successor(alloc)?))?;
    put(steps, Step::Assume(of_expansion(alloc)?))
}

fn steps(alloc: Global) -> Result<Rows<Step>, NoMemory> {
    let mut steps = Rows::begin(alloc);
    put_premises(alloc, &mut steps)?;
    put_wanted(alloc, &mut steps)?;
    put_redexes(alloc, &mut steps)?;
    Ok(steps)
}

/// What a theorem says, where it is there.
#[tactic(none)]
fn said<'l>(log: &'l Log, th: ThmId) -> Option<&'l Term> {
    if th.0 >= log.len() {
        return None;
    }
    Some(log.conclusion(th))
}

/// Whether the theorem says what the wanted one says, and has so many hypotheses.
#[tactic(none)]
fn says(log: &Log, th: ThmId, wanted: ThmId, hypotheses: u64) -> bool {
    if th.0 >= log.len() {
        return false;
    }
    match said(log, wanted) {
        Some(t) => same(log.conclusion(th), t) && log.hypotheses(th).len() == hypotheses,
        None => false,
    }
}

/// Whether what another theorem says is a hypothesis of the theorem.
#[tactic(none)]
fn supposes(log: &Log, th: ThmId, other: ThmId) -> bool {
    if th.0 >= log.len() {
        return false;
    }
    match said(log, other) {
        Some(t) => log.hypotheses(th).holds(t),
        None => false,
    }
}

/// Whether the cut of two theorems says what is wanted without hypotheses.
#[tactic(none)]
fn is_cut(log: &mut Log, a: ThmId, c: ThmId, wanted: ThmId) -> Result<bool, NoMemory> {
    if a.0 >= log.len() {
        return Ok(false);
    }
    if c.0 >= log.len() {
        return Ok(false);
    }
    let th = cut(log, a, c)?;
    Ok(says(log, th, wanted, 0))
}

/// Whether what a theorem says, or its negation, is what is wanted without hypotheses.
#[tactic(none)]
fn is_middle(log: &mut Log, of: ThmId, wanted: ThmId) -> Result<bool, NoMemory> {
    if of.0 >= log.len() {
        return Ok(false);
    }
    let formula = copy(log.conclusion(of))?;
    let middle = excluded_middle(log, &formula);
    drop(formula);
    Ok(says(log, middle?, wanted, 0))
}

/// Whether the cases of what a theorem says give what is wanted without hypotheses.
#[tactic(none)]
fn is_split(
    log: &mut Log,
    of: ThmId,
    yes: ThmId,
    no: ThmId,
    wanted: ThmId,
) -> Result<bool, NoMemory> {
    if of.0 >= log.len() {
        return Ok(false);
    }
    if yes.0 >= log.len() {
        return Ok(false);
    }
    if no.0 >= log.len() {
        return Ok(false);
    }
    if !same(log.conclusion(yes), log.conclusion(no)) {
        return Ok(false);
    }
    let formula = copy(log.conclusion(of))?;
    let split = cases(log, &formula, yes, no);
    drop(formula);
    Ok(says(log, split?, wanted, 0))
}

/// Whether an equation takes a denial of its left side to what is wanted, with two hypotheses.
#[tactic(none)]
fn is_replaced(log: &mut Log, eq: ThmId, denial: ThmId, wanted: ThmId) -> Result<bool, NoMemory> {
    if eq.0 >= log.len() {
        return Ok(false);
    }
    if denial.0 >= log.len() {
        return Ok(false);
    }
    if !is_equation(log.conclusion(eq)) {
        return Ok(false);
    }
    if !is_negation(log.conclusion(denial)) {
        return Ok(false);
    }
    if !same(right(log.conclusion(denial)), left(log.conclusion(eq))) {
        return Ok(false);
    }
    let mut path = Rows::begin(log.allocator());
    path.push(1)?;
    let th = replace_at(log, eq, denial, &path)?;
    Ok(says(log, th, wanted, 2))
}

/// The theorem with the target in its place, where the one path of the target contracts to what it says.
fn expand(
    log: &mut Log,
    th: ThmId,
    target: &Term,
    paths: &Rows<Rows<u8>>,
) -> Result<Option<ThmId>, NoMemory>
    requires { IsFormula log.old.env.sig target.now }
{
    match paths.as_slice() {
        [path] => {
            let eq = contraction(log, target, path.as_slice())?;
            if th.0 >= log.len() {
                return Ok(None);
            }
            if !same(right(log.conclusion(eq)), log.conclusion(th)) {
                return Ok(None);
            }
            let expanded = beta_expand(log, th, target, paths)?;
            Ok(Some(expanded))
        }
        _ => Ok(None),
    }
}

/// Whether a theorem, its own hypothesis, is expanded to what another says, and keeps its hypothesis.
#[tactic(none)]
fn is_expanded(
    log: &mut Log,
    th: ThmId,
    target: ThmId,
    paths: &Rows<Rows<u8>>,
) -> Result<bool, NoMemory> {
    if target.0 >= log.len() {
        return Ok(false);
    }
    let formula = copy(log.conclusion(target))?;
    let expanded = expand(log, th, &formula, paths);
    drop(formula);
    match expanded? {
        Some(new) => Ok(says(log, new, target, 1) && supposes(log, new, th)),
        None => Ok(false),
    }
}

/// Whether what `wanted` says comes where the path's part of what `whole` says gives way to `q`.
#[tactic(none)]
fn is_filled(log: &Log, path: &[u8], whole: ThmId, wanted: ThmId) -> Result<bool, NoMemory> {
    match (said(log, whole), said(log, wanted), said(log, ThmId(8))) {
        (Some(whole), Some(wanted), Some(part)) => {
            let filled = replaced(log.allocator(), path, part, whole)?;
            let good = same(&filled, wanted);
            drop(filled);
            Ok(good)
        }
        _ => Ok(false),
    }
}

/// Whether either side of `p | ~p` gives way, and nothing changes where there is no part.
#[tactic(none)]
fn places_are_told(log: &Log) -> Result<bool, NoMemory> {
    Ok(
        is_filled(log, &[0, 1], ThmId(10), ThmId(11))?
            && is_filled(log, &[1, 1], ThmId(10), ThmId(12))?
            && is_filled(log, &[0, 2], ThmId(10), ThmId(10))?,
    )
}

#[tactic(none)]
fn sequents_are_told(log: &mut Log) -> Result<bool, NoMemory> {
    Ok(
        is_middle(log, ThmId(0), ThmId(10))?
            && is_replaced(log, ThmId(7), ThmId(4), ThmId(9))?
            && is_cut(log, ThmId(0), ThmId(3), ThmId(8))?
            && is_split(log, ThmId(0), ThmId(3), ThmId(6), ThmId(8))?,
    )
}

/// This path alone.
fn alone(alloc: Global, path: Rows<u8>) -> Result<Rows<Rows<u8>>, NoMemory> {
    let mut paths = Rows::begin(alloc);
    paths.push(path)?;
    Ok(paths)
}

/// The path to an argument.
fn to_argument(alloc: Global) -> Result<Rows<Rows<u8>>, NoMemory> {
    let mut path = Rows::begin(alloc);
    path.push(1)?;
    alone(alloc, path)
}

/// The path to the body of a lambda that is an argument.
fn to_body(alloc: Global) -> Result<Rows<Rows<u8>>, NoMemory> {
    let mut path = Rows::begin(alloc);
    path.push(1)?;
    path.push(2)?;
    alone(alloc, path)
}

#[tactic(none)]
fn redexes_are_told(alloc: Global, log: &mut Log) -> Result<bool, NoMemory> {
    let argument = to_argument(alloc)?;
    let body = to_body(alloc)?;
    Ok(
        is_expanded(log, ThmId(13), ThmId(14), &argument)?
            && is_expanded(log, ThmId(15), ThmId(16), &body)?,
    )
}

#[tactic(none)]
fn calls_are_told(alloc: Global, log: &mut Log) -> Result<bool, NoMemory> {
    Ok(places_are_told(&*log)? && sequents_are_told(log)? && redexes_are_told(alloc, log)?)
}

#[tactic(none)]
fn log_is_told(alloc: Global, env: &Env) -> Result<bool, NoMemory> {
    match checked(alloc, env, steps(alloc)?) {
        Ok(mut log) => calls_are_told(alloc, &mut log),
        Err(StepFault::Refused { at: _ }) => Ok(false),
        Err(StepFault::NoMemory) => Err(NoMemory),
    }
}

#[tactic(none)]
fn rules_are_told(alloc: Global) -> Result<bool, TypeFault> {
    let env = environment(alloc)?;
    let told = log_is_told(alloc, &env);
    drop(env);
    Ok(told?)
}

#[test]
fn derived_rules_give_their_sequents(rt: HostRuntime) -> Result<(), Fail> {
    let good = rules_are_told(rt.alloc())?;
    assert!(rt; good);
    Ok(())
}
