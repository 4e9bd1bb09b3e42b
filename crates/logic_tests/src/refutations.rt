ghost use Rattle.std.specs.Prelude.{◌≡◌, IfOk};
ghost use Rattle.std.specs.FinSet as set;
ghost use Rattle.hol_terms.specs.Formulas.{IsFormula, is_formula as formula_test};
ghost use Rattle.hol_terms.specs.Types.{bool_ty};
ghost use Rattle.kernel_rules.specs.Connectives.{falsum, neg, equal, all, some as exists, chosen, lambda};
ghost use Rattle.kernel_rules.specs.Rules.{seq};
ghost use Rattle.hol_kernel.specs.Logs.{IsThm, thm};
ghost use Rattle.hol_kernel.specs.Growth.{Extends, Gives};
ghost use Rattle.hol_kernel.specs.Conditions.{IsGiven};

use hol_kernel::{Log, ThmId};
use hol_refutations::{
    all_at, and_left, and_right, atom, equal_first, equal_second, falsity, implies, not_all_chosen,
    not_all_named, not_and, not_equal, not_implies, not_not, not_or_left, not_or_right, not_true,
    or_both, some_chosen, some_named,
};
use hol_terms::{Env, Konst, Sig, Term, Ty, TypeFault, copy, copy_ty, is_formula, put_together};
use kernel_rules::{
    apply, equation, existential, is_falsum, lambda as abstraction, negation, universal,
};
use std::alloc::Global;
use std::test::Fail;
use text_kit::{NoMemory, Rows};

/// The type of formulas.
fn bool_type() -> Ty
    ensures { result ≡ bool_ty }
{
    Ty::Base(0)
}

/// `\x. ~b`
fn failure(alloc: Global, ty: &Ty, body: &Term) -> Result<Term, NoMemory>
    ensures { IfOk result (λ t. t ≡ lambda ty.now (neg body.now)) }
{
    abstraction(alloc, copy_ty(ty)?, negation(alloc, body)?)
}

#[tactic(none)]
fn p() -> Term {
    Term::Con(Konst::Named(0))
}

#[tactic(none)]
fn q() -> Term {
    Term::Con(Konst::Named(1))
}

#[tactic(none)]
fn put_constants(consts: &mut Rows<Ty>) -> Result<(), NoMemory> {
    consts.push(Ty::Base(0))?;
    consts.push(Ty::Base(0))
}

fn signature(alloc: Global) -> Result<Sig, NoMemory> {
    let mut consts = Rows::begin(alloc);
    put_constants(&mut consts)?;
    Ok(Sig {
        types: 1,
        consts,
        aux: Rows::begin(alloc),
    })
}

/// The goal `p` over no facts.
#[tactic(none)]
fn environment(alloc: Global) -> Result<Env, TypeFault> {
    let sig = signature(alloc)?;
    put_together(alloc, sig, Rows::begin(alloc), p())
}

/// Whether the theorem says `false`, under so many hypotheses.
#[tactic(none)]
fn refutes(log: &Log, th: ThmId, hypotheses: u64) -> bool {
    if th.0 >= log.len() {
        return false;
    }
    is_falsum(log.conclusion(th)) && log.hypotheses(th).len() == hypotheses
}

#[tactic(none)]
fn units_are_told(log: &mut Log, a: &Term, left: ThmId) -> Result<bool, NoMemory>
    requires a { IsFormula log.old.env.sig a.now }
    requires left { IsThm log.old left.0 }
    requires left_false { (thm log.old left.0).concl ≡ falsum }
    ensures kept { Extends log.old log.new }
{
    let no_truth = not_true(log)?;
    let untrue = falsity(log)?;
    let twice = not_not(log, a, left)?;
    Ok(refutes(log, no_truth, 1) & refutes(log, untrue, 1) & refutes(log, twice, 2))
}

#[tactic(none)]
fn conjunctions_are_told(
    log: &mut Log,
    a: &Term,
    b: &Term,
    left: ThmId,
    right: ThmId,
) -> Result<bool, NoMemory>
    requires a { IsFormula log.old.env.sig a.now }
    requires b { IsFormula log.old.env.sig b.now }
    requires left { IsThm log.old left.0 }
    requires left_false { (thm log.old left.0).concl ≡ falsum }
    requires right { IsThm log.old right.0 }
    requires right_false { (thm log.old right.0).concl ≡ falsum }
    ensures kept { Extends log.old log.new }
{
    let one = and_left(log, a, b, left)?;
    let other = and_right(log, a, b, right)?;
    let denied = not_and(log, a, b, left, right)?;
    Ok(refutes(log, one, 2) & refutes(log, other, 2) & refutes(log, denied, 3))
}

#[tactic(none)]
fn disjunctions_are_told(
    log: &mut Log,
    a: &Term,
    b: &Term,
    left: ThmId,
    right: ThmId,
) -> Result<bool, NoMemory>
    requires a { IsFormula log.old.env.sig a.now }
    requires b { IsFormula log.old.env.sig b.now }
    requires left { IsThm log.old left.0 }
    requires left_false { (thm log.old left.0).concl ≡ falsum }
    requires right { IsThm log.old right.0 }
    requires right_false { (thm log.old right.0).concl ≡ falsum }
    ensures kept { Extends log.old log.new }
{
    let either = or_both(log, a, b, left, right)?;
    let one = not_or_left(log, a, b, left)?;
    let other = not_or_right(log, a, b, right)?;
    Ok(refutes(log, either, 3) & refutes(log, one, 2) & refutes(log, other, 2))
}

/// Either part refutes a denied implication: the left theorem is one of `a`, the right one of `~b`.
#[tactic(none)]
fn implications_are_told(
    log: &mut Log,
    a: &Term,
    b: &Term,
    left: ThmId,
    right: ThmId,
) -> Result<bool, NoMemory>
    requires a { IsFormula log.old.env.sig a.now }
    requires b { IsFormula log.old.env.sig b.now }
    requires left { IsThm log.old left.0 }
    requires left_false { (thm log.old left.0).concl ≡ falsum }
    requires right { IsThm log.old right.0 }
    requires right_false { (thm log.old right.0).concl ≡ falsum }
    ensures kept { Extends log.old log.new }
{
    let held = implies(log, a, b, left, right)?;
    let one = not_implies(log, a, b, left)?;
    let other = not_implies(log, a, b, right)?;
    Ok(refutes(log, held, 3) & refutes(log, one, 2) & refutes(log, other, 2))
}

#[tactic(none)]
fn equations_are_told(
    log: &mut Log,
    a: &Term,
    b: &Term,
    left: ThmId,
    right: ThmId,
) -> Result<bool, NoMemory>
    requires a { IsFormula log.old.env.sig a.now }
    requires b { IsFormula log.old.env.sig b.now }
    requires whole { IsFormula log.old.env.sig (equal bool_ty a.now b.now) }
    requires left { IsThm log.old left.0 }
    requires left_false { (thm log.old left.0).concl ≡ falsum }
    requires right { IsThm log.old right.0 }
    requires right_false { (thm log.old right.0).concl ≡ falsum }
    ensures kept { Extends log.old log.new }
{
    let first = equal_first(log, a, b, left, right)?;
    let second = equal_second(log, a, b, left, right)?;
    let denied = not_equal(log, a, b, left, right)?;
    Ok(refutes(log, first, 3) & refutes(log, second, 3) & refutes(log, denied, 3))
}

/// The theorem is one of what `f` and `body` say of any value.
#[tactic(none)]
fn quantifiers_are_told(
    log: &mut Log,
    ty: &Ty,
    f: &Term,
    body: &Term,
    u: &Term,
    th: ThmId,
) -> Result<bool, NoMemory>
    requires every { IsFormula log.old.env.sig (all ty.now f.now) }
    requires each { IsFormula log.old.env.sig (all ty.now (lambda ty.now body.now)) }
    requires some { IsFormula log.old.env.sig (exists ty.now f.now) }
    requires value { IsGiven log.old.env.sig u.now ty.now }
    requires th { IsThm log.old th.0 }
    requires th_false { (thm log.old th.0).concl ≡ falsum }
    ensures kept { Extends log.old log.new }
{
    let every = all_at(log, ty, f, u, th)?;
    let held = some_chosen(log, ty, f, th)?;
    let failed = not_all_chosen(log, ty, body, th)?;
    Ok(refutes(log, every, 2) & refutes(log, held, 2) & refutes(log, failed, 2))
}

/// The value that is chosen for `f`.
fn choice(alloc: Global, ty: &Ty, f: &Term) -> Result<Term, NoMemory>
    ensures { IfOk result (λ t. t ≡ chosen ty.now f.now) }
{
    apply(alloc, Term::Con(Konst::Eps(copy_ty(ty)?)), copy(f)?)
}

/// `{} : c = c` for the value `c` that is chosen for `f`: its own name.
#[tactic(none)]
fn own_name(log: &mut Log, ty: &Ty, f: &Term) -> Result<ThmId, NoMemory>
    requires { IsFormula log.old.env.sig (exists ty.now f.now) }
    ensures kept { Extends log.old log.new }
    ensures gives { IfOk result (λ r. Gives log.new r.0 (seq set.empty (equal ty.now (chosen ty.now f.now) (chosen ty.now f.now)))) }
{
    let value = choice(log.allocator(), ty, f)?;
    let name = log.refl(&value);
    drop(value);
    name
}

/// The same for the value that is chosen for `\x. ~b`.
#[tactic(none)]
fn own_name_failing(log: &mut Log, ty: &Ty, body: &Term) -> Result<ThmId, NoMemory>
    requires { IsFormula log.old.env.sig (all ty.now (lambda ty.now body.now)) }
    ensures kept { Extends log.old log.new }
    ensures gives { IfOk result (λ r. Gives log.new r.0 (seq set.empty (equal ty.now (chosen ty.now (lambda ty.now (neg body.now))) (chosen ty.now (lambda ty.now (neg body.now)))))) }
{
    let property = failure(log.allocator(), ty, body)?;
    let name = own_name(log, ty, &property);
    drop(property);
    name
}

#[tactic(none)]
fn holding_is_told(log: &mut Log, ty: &Ty, f: &Term, th: ThmId) -> Result<bool, NoMemory>
    requires some { IsFormula log.old.env.sig (exists ty.now f.now) }
    requires th { IsThm log.old th.0 }
    requires th_false { (thm log.old th.0).concl ≡ falsum }
    ensures kept { Extends log.old log.new }
{
    let name = own_name(log, ty, f)?;
    let held = some_named(log, ty, f, name, th)?;
    Ok(refutes(log, held, 2))
}

#[tactic(none)]
fn failing_is_told(log: &mut Log, ty: &Ty, body: &Term, th: ThmId) -> Result<bool, NoMemory>
    requires each { IsFormula log.old.env.sig (all ty.now (lambda ty.now body.now)) }
    requires th { IsThm log.old th.0 }
    requires th_false { (thm log.old th.0).concl ≡ falsum }
    ensures kept { Extends log.old log.new }
{
    let name = own_name_failing(log, ty, body)?;
    let failed = not_all_named(log, ty, body, name, th)?;
    Ok(refutes(log, failed, 2))
}

/// The left theorem is `{~a, a} : false`, the right one `{~b, b} : false`.
#[tactic(none)]
fn wholes_are_told(
    log: &mut Log,
    a: &Term,
    b: &Term,
    left: ThmId,
    right: ThmId,
) -> Result<bool, NoMemory>
    requires a { IsFormula log.old.env.sig a.now }
    requires b { IsFormula log.old.env.sig b.now }
    requires whole { IsFormula log.old.env.sig (equal bool_ty a.now b.now) }
    requires left { IsThm log.old left.0 }
    requires left_false { (thm log.old left.0).concl ≡ falsum }
    requires right { IsThm log.old right.0 }
    requires right_false { (thm log.old right.0).concl ≡ falsum }
    ensures kept { Extends log.old log.new }
{
    let units = units_are_told(log, a, left)?;
    let conjunctions = conjunctions_are_told(log, a, b, left, right)?;
    let disjunctions = disjunctions_are_told(log, a, b, left, right)?;
    let implications = implications_are_told(log, a, b, left, right)?;
    let equations = equations_are_told(log, a, b, left, right)?;
    Ok(units & conjunctions & disjunctions & implications & equations)
}

#[tactic(none)]
fn calls_are_told(log: &mut Log, a: &Term, b: &Term) -> Result<bool, NoMemory>
    requires a { IsFormula log.old.env.sig a.now }
    requires b { IsFormula log.old.env.sig b.now }
    requires whole { IsFormula log.old.env.sig (equal bool_ty a.now b.now) }
    ensures kept { Extends log.old log.new }
{
    let left = atom(log, a)?;
    let right = atom(log, b)?;
    let wholes = wholes_are_told(log, a, b, left, right)?;
    Ok(refutes(log, left, 2) & refutes(log, right, 2) & wholes)
}

/// Whether `a = b` is a formula, the sides formulas.
fn may_equal(alloc: Global, sig: &Sig, a: &Term, b: &Term) -> Result<bool, NoMemory>
    ensures { IfOk result (λ r. r ≡ formula_test sig.now (equal bool_ty a.now b.now)) }
{
    let whole = equation(alloc, bool_type(), a, b)?;
    is_formula(alloc, sig, &whole)
}

/// The same of what are formulas over the signature.
fn formulas_are_told(alloc: Global, log: &mut Log, a: &Term, b: &Term) -> Result<bool, NoMemory> {
    if !is_formula(alloc, &log.env().sig, a)? {
        return Ok(false);
    }
    if !is_formula(alloc, &log.env().sig, b)? {
        return Ok(false);
    }
    if !may_equal(alloc, &log.env().sig, a, b)? {
        return Ok(false);
    }
    calls_are_told(log, a, b)
}

/// Whether `!x. f@x` is a formula.
fn may_hold(alloc: Global, sig: &Sig, ty: &Ty, f: &Term) -> Result<bool, NoMemory>
    ensures { IfOk result (λ r. r ≡ formula_test sig.now (all ty.now f.now)) }
{
    let whole = universal(alloc, copy_ty(ty)?, f)?;
    is_formula(alloc, sig, &whole)
}

/// Whether `!x. b` is a formula.
fn may_hold_of_all(alloc: Global, sig: &Sig, ty: &Ty, body: &Term) -> Result<bool, NoMemory>
    ensures { IfOk result (λ r. r ≡ formula_test sig.now (all ty.now (lambda ty.now body.now))) }
{
    let f = abstraction(alloc, copy_ty(ty)?, copy(body)?)?;
    may_hold(alloc, sig, ty, &f)
}

/// Whether `?x. f@x` is a formula.
fn may_hold_of_some(alloc: Global, sig: &Sig, ty: &Ty, f: &Term) -> Result<bool, NoMemory>
    ensures { IfOk result (λ r. r ≡ formula_test sig.now (exists ty.now f.now)) }
{
    let whole = existential(alloc, copy_ty(ty)?, f)?;
    is_formula(alloc, sig, &whole)
}

/// The quantifiers of `\x. body`, where they may be told with `body` for every value.
#[tactic(none)]
fn refuted_quantifiers(
    log: &mut Log,
    ty: &Ty,
    f: &Term,
    body: &Term,
    u: &Term,
) -> Result<bool, NoMemory>
    requires every { IsFormula log.old.env.sig (all ty.now f.now) }
    requires each { IsFormula log.old.env.sig (all ty.now (lambda ty.now body.now)) }
    requires some { IsFormula log.old.env.sig (exists ty.now f.now) }
    requires body { IsFormula log.old.env.sig body.now }
    requires value { IsFormula log.old.env.sig u.now }
    requires ty { ty.now ≡ bool_ty }
{
    let clash = atom(log, body)?;
    let values = quantifiers_are_told(log, ty, f, body, u, clash)?;
    let holding = holding_is_told(log, ty, f, clash)?;
    let failing = failing_is_told(log, ty, body, clash)?;
    Ok(values & holding & failing)
}

/// The same where they are formulas over the signature.
fn bound_are_told(
    alloc: Global,
    log: &mut Log,
    ty: &Ty,
    f: &Term,
    body: &Term,
    u: &Term,
) -> Result<bool, NoMemory>
    requires { ty.now ≡ bool_ty }
{
    if !may_hold(alloc, &log.env().sig, ty, f)? {
        return Ok(false);
    }
    if !may_hold_of_all(alloc, &log.env().sig, ty, body)? {
        return Ok(false);
    }
    if !may_hold_of_some(alloc, &log.env().sig, ty, f)? {
        return Ok(false);
    }
    if !is_formula(alloc, &log.env().sig, body)? {
        return Ok(false);
    }
    if !is_formula(alloc, &log.env().sig, u)? {
        return Ok(false);
    }
    refuted_quantifiers(log, ty, f, body, u)
}

/// The quantifiers of `\x. p`, and a value `q`.
#[tactic(none)]
fn constant_property_is_told(alloc: Global, log: &mut Log) -> Result<bool, NoMemory> {
    let f = abstraction(alloc, Ty::Base(0), p())?;
    let body = p();
    let value = q();
    let ty = bool_type();
    let told = bound_are_told(alloc, log, &ty, &f, &body, &value);
    drop(value);
    drop(body);
    drop(f);
    told
}

#[tactic(none)]
fn log_is_told(alloc: Global, env: &Env) -> Result<bool, NoMemory> {
    let mut log = Log::begin(alloc, env);
    let one = p();
    let other = q();
    let told = formulas_are_told(alloc, &mut log, &one, &other);
    let bound = constant_property_is_told(alloc, &mut log);
    drop(other);
    drop(one);
    drop(log);
    Ok(told? & bound?)
}

#[tactic(none)]
fn rules_are_told(alloc: Global) -> Result<bool, TypeFault> {
    let env = environment(alloc)?;
    let told = log_is_told(alloc, &env);
    drop(env);
    Ok(told?)
}

#[test]
fn wholes_are_refuted_from_their_parts(rt: HostRuntime) -> Result<(), Fail> {
    let good = rules_are_told(rt.alloc())?;
    assert!(rt; good);
    Ok(())
}
