use hol_terms::{Konst, Sig, Term, Ty, arrow, is_sentence, same};
use lambda_lift::{Lifted, Table, expand, lift, redexes};
use std::alloc::Global;
use std::test::Fail;
use text_kit::{NoMemory, Rows, Shared};

fn apply(alloc: Global, f: Result<Term, NoMemory>, x: Term) -> Result<Term, NoMemory> {
    let arg = Shared::new(alloc, x)?;
    Ok(Term::App(Shared::new(alloc, f?)?, arg))
}

/// `\y:nat. b`
fn lambda(alloc: Global, body: Term) -> Result<Term, NoMemory> {
    Ok(Term::Lam(Ty::Base(1), Shared::new(alloc, body)?))
}

/// `!x:nat. b`
fn every(alloc: Global, body: Term) -> Result<Term, NoMemory> {
    let property = lambda(alloc, body)?;
    apply(alloc, Ok(Term::Con(Konst::All(Ty::Base(1)))), property)
}

/// `s = t` at nat
fn equal(alloc: Global, left: Term, right: Term) -> Result<Term, NoMemory> {
    let half = apply(alloc, Ok(Term::Con(Konst::Eq(Ty::Base(1)))), left);
    apply(alloc, half, right)
}

/// `map f x`, constant 0 being `map`
fn mapping(alloc: Global, f: Term, x: u64) -> Result<Term, NoMemory> {
    let half = apply(alloc, Ok(Term::Con(Konst::Named(0))), f);
    apply(alloc, half, Term::Bound(x))
}

/// Auxiliary constant `k`, applied to a variable.
fn of_variable(alloc: Global, k: u64, x: u64) -> Result<Term, NoMemory> {
    apply(alloc, Ok(Term::Con(Konst::Aux(k))), Term::Bound(x))
}

/// `!x. map (\y. map (\z. x) y) x = x`
fn formula(alloc: Global) -> Result<Term, NoMemory> {
    let inner = lambda(alloc, Term::Bound(2))?;
    let outer = lambda(alloc, mapping(alloc, inner, 0)?)?;
    every(
        alloc,
        equal(alloc, mapping(alloc, outer, 0)?, Term::Bound(0))?,
    )
}

/// `!x. map (a0 x) x = x`
fn wanted_body(alloc: Global) -> Result<Term, NoMemory> {
    let left = mapping(alloc, of_variable(alloc, 0, 0)?, 0)?;
    every(alloc, equal(alloc, left, Term::Bound(0))?)
}

/// `!x. !y. a0 x y = map (a1 x) y`
fn wanted_first(alloc: Global) -> Result<Term, NoMemory> {
    let right = mapping(alloc, of_variable(alloc, 1, 1)?, 0)?;
    let left = apply(alloc, of_variable(alloc, 0, 1), Term::Bound(0))?;
    every(alloc, every(alloc, equal(alloc, left, right)?)?)
}

/// `!x. !z. a1 x z = x`
fn wanted_second(alloc: Global) -> Result<Term, NoMemory> {
    let left = apply(alloc, of_variable(alloc, 1, 1), Term::Bound(0))?;
    every(alloc, every(alloc, equal(alloc, left, Term::Bound(1))?)?)
}

fn is_same(t: &Term, wanted: Result<Term, NoMemory>) -> bool {
    match wanted {
        Ok(w) => same(t, &w),
        Err(_) => false,
    }
}

/// `map : (nat -> nat) -> nat -> nat`
fn map_ty(alloc: Global) -> Result<Ty, NoMemory> {
    let left = arrow(alloc, Ty::Base(1), Ty::Base(1))?;
    let right = arrow(alloc, Ty::Base(1), Ty::Base(1))?;
    arrow(alloc, left, right)
}

/// `map`, `suc` and `zero`
fn signature(alloc: Global) -> Result<Sig, NoMemory> {
    let mut consts = Rows::begin(alloc);
    consts.push(map_ty(alloc)?)?;
    consts.push(arrow(alloc, Ty::Base(1), Ty::Base(1))?)?;
    consts.push(Ty::Base(1))?;
    Ok(Sig {
        types: 2,
        consts,
        aux: Rows::begin(alloc),
    })
}

/// The sentence lifted, with its type looked at first.
fn lifted(alloc: Global, table: &mut Table, sentence: &Term) -> Result<Lifted, NoMemory> {
    let sig = signature(alloc)?;
    if !is_sentence(alloc, &sig, sentence)? {
        return Err(NoMemory);
    }
    lift(alloc, &sig, table, sentence)
}

/// `suc x`
fn suc(alloc: Global, x: Term) -> Result<Term, NoMemory> {
    apply(alloc, Ok(Term::Con(Konst::Named(1))), x)
}

/// `map (\y. suc y) zero = suc zero`
fn mapped(alloc: Global) -> Result<Term, NoMemory> {
    let step = lambda(alloc, suc(alloc, Term::Bound(0))?)?;
    let half = apply(alloc, Ok(Term::Con(Konst::Named(0))), step);
    let left = apply(alloc, half, Term::Con(Konst::Named(2)))?;
    equal(alloc, left, suc(alloc, Term::Con(Konst::Named(2)))?)
}

/// `!y. a0 y = suc y`
fn wanted_step(alloc: Global) -> Result<Term, NoMemory> {
    let right = suc(alloc, Term::Bound(0))?;
    every(alloc, equal(alloc, of_variable(alloc, 0, 0)?, right)?)
}

/// A lambda without variables of quantifiers: its constant stands alone.
fn closed_lambda_is_lifted(alloc: Global) -> Result<bool, NoMemory> {
    let mut table = Table::begin(alloc);
    let it = lifted(alloc, &mut table, &mapped(alloc)?)?;
    Ok(it.equations.len() == 1 && is_same(it.equations.at(0), wanted_step(alloc)))
}

fn is_path(path: &Rows<u8>, wanted: &[u8]) -> bool {
    path.as_slice() == wanted
}

/// The expanded body has one redex that the formula hasn't: the closed term of the outer lambda, applied to x.
fn is_told(alloc: Global, body: &Term) -> Result<bool, NoMemory> {
    let whole = formula(alloc)?;
    let paths = redexes(alloc, &whole, body)?;
    Ok(paths.len() == 1 && is_path(paths.at(0), &[1, 2, 0, 1, 0, 1]))
}

/// The inner lambda is met in the equation of the outer one, under its variables.
fn nested_lambdas_are_lifted(alloc: Global) -> Result<bool, NoMemory> {
    let mut table = Table::begin(alloc);
    let it = lifted(alloc, &mut table, &formula(alloc)?)?;
    let told = is_told(alloc, &it.body)?;
    let first = it.equations.len() == 2 && is_same(it.equations.at(0), wanted_first(alloc));
    let second = it.equations.len() == 2 && is_same(it.equations.at(1), wanted_second(alloc));
    let grown = !is_same(&it.body, expand(alloc, &table, &it.body));
    Ok(
        told && first
            && second
            && grown
            && table.entries().len() == 2
            && is_same(&it.body, wanted_body(alloc)),
    )
}

/// An equal closed term has the number that it had.
fn equal_terms_have_one_number(alloc: Global) -> Result<bool, NoMemory> {
    let mut table = Table::begin(alloc);
    let zero = table.add(&Ty::Base(1), &Term::Con(Konst::Named(0)))?;
    let truth = table.add(&Ty::Base(0), &Term::Con(Konst::True))?;
    let again = table.add(&Ty::Base(1), &Term::Con(Konst::Named(0)))?;
    Ok(zero == 0 && truth == 1 && again == 0)
}

#[test]
fn lifts_lambdas(rt: HostRuntime) -> Result<(), Fail> {
    let nested = nested_lambdas_are_lifted(rt.alloc())?;
    let numbered = equal_terms_have_one_number(rt.alloc())?;
    let closed = closed_lambda_is_lifted(rt.alloc())?;
    assert!(rt; nested && numbered && closed);
    Ok(())
}
