use fin_model::{EvalFault, Model, Valued, eval, fits_model, leaves_true, refutes, size};
use hol_terms::{Env, Konst, Sig, Term, Ty, TypeFault, arrow, has_no_aux, put_together, type_of};
use kernel_rules::{Step, ThmId, apply, lambda};
use std::alloc::Global;
use std::test::Fail;
use text_kit::{NoMemory, Rows};

/// A model of bool and of one more type of this size, with two constants of bool.
fn model(alloc: Global, individuals: u32, p: u64, q: u64) -> Result<Model, NoMemory> {
    let mut sizes = Rows::begin(alloc);
    sizes.push(2)?;
    sizes.push(individuals)?;
    let mut consts = Rows::begin(alloc);
    consts.push(p)?;
    consts.push(q)?;
    Ok(Model { sizes, consts })
}

fn signature(alloc: Global) -> Result<Sig, NoMemory> {
    let mut consts = Rows::begin(alloc);
    consts.push(Ty::Base(0))?;
    consts.push(Ty::Base(0))?;
    Ok(Sig {
        types: 2,
        consts,
        aux: Rows::begin(alloc),
    })
}

/// What the term evaluates to without free variables; a value that no term has, where it can't be evaluated at all.
fn evaluated(alloc: Global, sig: &Sig, model: &Model, t: &Term) -> Result<u64, EvalFault> {
    let free: Rows<Valued> = Rows::begin(alloc);
    if !fits_model(sig, model) {
        return Ok(u64::MAX);
    }
    if !has_no_aux(t) {
        return Ok(u64::MAX);
    }
    match type_of(alloc, sig, t) {
        Ok(_) => eval(alloc, sig, model, &free, t),
        Err(TypeFault::NoMemory) => Err(EvalFault::NoMemory),
        Err(_) => Ok(u64::MAX),
    }
}

/// Whether the term has this value where the second type has so many values.
#[tactic(none)]
fn is_worth(alloc: Global, individuals: u32, t: Term, value: u64) -> Result<bool, NoMemory> {
    let sig = signature(alloc)?;
    let model = model(alloc, individuals, 1, 0)?;
    match evaluated(alloc, &sig, &model, &t) {
        Ok(n) => Ok(n == value),
        Err(EvalFault::TooBig) => Ok(false),
        Err(EvalFault::NoMemory) => Err(NoMemory),
    }
}

/// Whether the term is too big where the second type has eight values.
#[tactic(none)]
fn is_too_big(alloc: Global, t: Term) -> Result<bool, NoMemory> {
    let sig = signature(alloc)?;
    let model = model(alloc, 8, 1, 0)?;
    match evaluated(alloc, &sig, &model, &t) {
        Ok(_) => Ok(false),
        Err(EvalFault::TooBig) => Ok(true),
        Err(EvalFault::NoMemory) => Err(NoMemory),
    }
}

/// `\x. x`
#[tactic(none)]
fn identity(alloc: Global, ty: Ty) -> Result<Term, NoMemory> {
    lambda(alloc, ty, Term::Bound(0))
}

#[tactic(none)]
fn binary(alloc: Global, k: Konst, s: Term, t: Term) -> Result<Term, NoMemory> {
    apply(alloc, apply(alloc, Term::Con(k), s)?, t)
}

/// `true` under so many quantifiers over the second type.
#[tactic(none)]
fn quantified(alloc: Global, count: u64) -> Result<Term, NoMemory> {
    let mut t = Term::Con(Konst::True);
    for _i in 0..count {
        let property = lambda(alloc, Ty::Base(1), t)?;
        t = apply(alloc, Term::Con(Konst::All(Ty::Base(1))), property)?;
    }
    Ok(t)
}

/// A logical constant, and its number.
#[tactic(none)]
fn alone(i: u64) -> (Konst, u64) {
    match i {
        0 => (Konst::True, 1),
        1 => (Konst::False, 0),
        2 => (Konst::Not, 1),
        3 => (Konst::And, 8),
        4 => (Konst::Or, 14),
        5 => (Konst::Imp, 11),
        6 => (Konst::Eq(Ty::Base(0)), 9),
        7 => (Konst::All(Ty::Base(0)), 8),
        8 => (Konst::Ex(Ty::Base(0)), 14),
        _ => (Konst::Eps(Ty::Base(0)), 4),
    }
}

/// What a logical constant is worth with `\x:bool. x`.
#[tactic(none)]
fn with_identity(i: u64) -> (Konst, u64) {
    match i {
        0 => (Konst::All(Ty::Base(0)), 0),
        1 => (Konst::Ex(Ty::Base(0)), 1),
        _ => (Konst::Eps(Ty::Base(0)), 1),
    }
}

#[tactic(none)]
fn constants_alone(alloc: Global) -> Result<bool, NoMemory> {
    let mut right = true;
    for i in 0..10 {
        let (k, value) = alone(i);
        right &= is_worth(alloc, 3, Term::Con(k), value)?;
    }
    Ok(right)
}

#[tactic(none)]
fn constants_applied(alloc: Global) -> Result<bool, NoMemory> {
    let mut right = true;
    for i in 0..3 {
        let (k, value) = with_identity(i);
        let t = apply(alloc, Term::Con(k), identity(alloc, Ty::Base(0))?)?;
        right &= is_worth(alloc, 3, t, value)?;
    }
    Ok(right)
}

#[tactic(none)]
fn lambdas(alloc: Global) -> Result<bool, NoMemory> {
    let two = is_worth(alloc, 3, identity(alloc, Ty::Base(0))?, 2)?;
    let three = is_worth(alloc, 3, identity(alloc, Ty::Base(1))?, 21)?;
    Ok(two && three)
}

#[tactic(none)]
fn sizes_end(alloc: Global) -> Result<bool, NoMemory> {
    let model = model(alloc, 8, 1, 0)?;
    let endless = size(&model, &arrow(alloc, Ty::Base(1), Ty::Base(1))?);
    let sets = size(&model, &arrow(alloc, Ty::Base(1), Ty::Base(0))?);
    Ok(endless.is_none() && sets == Some(256))
}

/// `(\x. x) = (\x. x)` over the second type.
#[tactic(none)]
fn reflexive(alloc: Global) -> Result<Term, NoMemory> {
    let own = arrow(alloc, Ty::Base(1), Ty::Base(1))?;
    let left = identity(alloc, Ty::Base(1))?;
    binary(alloc, Konst::Eq(own), left, identity(alloc, Ty::Base(1))?)
}

#[tactic(none)]
fn products_end(alloc: Global) -> Result<bool, NoMemory> {
    let equation = is_too_big(alloc, reflexive(alloc)?)?;
    let five = is_too_big(alloc, quantified(alloc, 5)?)?;
    let four = is_worth(alloc, 8, quantified(alloc, 4)?, 1)?;
    Ok(equation && five && four)
}

#[test]
fn terms_are_worth_what_the_table_says(rt: HostRuntime) -> Result<(), Fail> {
    let alloc = rt.alloc();
    let right = constants_alone(alloc)? && constants_applied(alloc)? && lambdas(alloc)?;
    assert!(rt; right);
    Ok(())
}

#[test]
fn too_big_is_told_of_types_and_of_products(rt: HostRuntime) -> Result<(), Fail> {
    let right = sizes_end(rt.alloc())? && products_end(rt.alloc())?;
    assert!(rt; right);
    Ok(())
}

#[tactic(none)]
fn named(number: u32) -> Term {
    Term::Con(Konst::Named(number))
}

/// From `p` and `~p | q` to `q`.
#[tactic(none)]
fn environment(alloc: Global) -> Result<Option<Env>, NoMemory> {
    let mut facts = Rows::begin(alloc);
    facts.push(named(0))?;
    let denied = apply(alloc, Term::Con(Konst::Not), named(0))?;
    facts.push(binary(alloc, Konst::Or, denied, named(1))?)?;
    match put_together(alloc, signature(alloc)?, facts, named(1)) {
        Ok(env) => Ok(Some(env)),
        Err(TypeFault::NoMemory) => Err(NoMemory),
        Err(_) => Ok(None),
    }
}

fn numbers(alloc: Global, count: u32) -> Result<Rows<u32>, NoMemory> {
    let mut all = Rows::begin(alloc);
    for i in 0..count {
        all.push(i)?;
    }
    Ok(all)
}

/// The steps that prove `q`.
#[tactic(none)]
fn proof(alloc: Global) -> Result<Rows<Step>, NoMemory> {
    let mut steps = Rows::begin(alloc);
    steps.push(Step::Fact(0))?;
    steps.push(Step::Fact(1))?;
    steps.push(Step::Assume(apply(alloc, Term::Con(Konst::Not), named(0))?))?;
    steps.push(Step::NotElim(ThmId(2), ThmId(0)))?;
    steps.push(Step::Classical(named(1), ThmId(3)))?;
    steps.push(Step::Assume(named(1)))?;
    steps.push(Step::OrElim(ThmId(1), ThmId(4), ThmId(5)))?;
    Ok(steps)
}

/// Whether the model refutes the goal from the first list of facts and not from the second, and the facts of the proof
/// aren't all true in it.
fn refutes_as_it_should(
    alloc: Global,
    env: &Env,
    model: &Model,
    one: &Rows<u32>,
    two: &Rows<u32>,
    steps: &Rows<Step>,
) -> Result<bool, EvalFault> {
    if !fits_model(&env.sig, model) {
        return Ok(false);
    }
    Ok(
        refutes(alloc, env, model, one)?
            && !refutes(alloc, env, model, two)?
            && !leaves_true(alloc, env, model, steps)?,
    )
}

#[tactic(none)]
fn told(answer: Result<bool, EvalFault>) -> Result<bool, NoMemory> {
    match answer {
        Ok(b) => Ok(b),
        Err(EvalFault::TooBig) => Ok(false),
        Err(EvalFault::NoMemory) => Err(NoMemory),
    }
}

#[test]
fn a_model_refutes_the_goal_from_one_fact(rt: HostRuntime) -> Result<(), Fail> {
    let alloc = rt.alloc();
    let model = model(alloc, 1, 1, 0)?;
    let one = numbers(alloc, 1)?;
    let two = numbers(alloc, 2)?;
    let steps = proof(alloc)?;
    let right = match environment(alloc)? {
        Some(env) => told(refutes_as_it_should(alloc, &env, &model, &one, &two, &steps))?,
        None => false,
    };
    assert!(rt; right);
    Ok(())
}
