ghost use Rattle.std.specs.Prelude.{◌≡◌, IfOk, IsTrue, false};
ghost use Rattle.std.specs.FinSet as set;
ghost use Rattle.hol_terms.specs.Formulas.{IsFormula};
ghost use Rattle.hol_terms.specs.Substitution.{instantiated, occurs};
ghost use Rattle.hol_terms.specs.declared.term.Term.{Free};
ghost use Rattle.hyp_sets.specs.Sets.{only, absent};
ghost use Rattle.kernel_rules.specs.Connectives.{falsum, neg, equal, all, some, chosen, lambda, applied_to, right_of};
ghost use Rattle.kernel_rules.specs.Rules.{seq};
ghost use Rattle.hol_kernel.specs.Logs.{IsThm, thm};
ghost use Rattle.hol_kernel.specs.Growth.{Extends, Gives, SameFacts};
ghost use Rattle.hol_kernel.specs.Conditions.{own_ty, IsGiven, IsProperty};

use crate::denying::denied;
use hol_derived::cut;
use hol_kernel::{Log, ThmId};
use hol_terms::{Term, Ty, copy_ty, free_in, instantiate};
use kernel_rules::{existential, lambda as abstraction, negation};
use std::alloc::Global;
use text_kit::NoMemory;

/// A number whose variable of the type isn't in the term: the first, as they are tried in turn.
fn fresh(ty: &Ty, t: &Term) -> Result<u64, NoMemory>
    ensures { IfOk result (λ n. occurs n ty.now t.now ≡ false) }
{
    for n in 0..u64::MAX {
        if !free_in(n, ty, t) {
            return Ok(n);
        }
    }
    Err(NoMemory)
}

/// The variable of this number and type.
fn variable(n: u64, ty: &Ty) -> Result<Term, NoMemory>
    ensures { IfOk result (λ t. t ≡ Free n ty.now) }
{
    Ok(Term::Free(n, copy_ty(ty)?))
}

/// `b[y]`
#[tactic(none)]
fn opened(alloc: Global, n: u64, ty: &Ty, body: &Term) -> Result<Term, NoMemory>
    ensures { IfOk result (λ t. t ≡ instantiated body.now (Free n ty.now)) }
{
    let variable = Term::Free(n, copy_ty(ty)?);
    instantiate(alloc, body, &variable)
}

/// `~b[y]`
fn denial(alloc: Global, n: u64, ty: &Ty, body: &Term) -> Result<Term, NoMemory>
    ensures { IfOk result (λ t. t ≡ neg (instantiated body.now (Free n ty.now))) }
{
    negation(alloc, &opened(alloc, n, ty, body)?)
}

/// `\x. ~b`
pub(crate) fn failure(alloc: Global, ty: &Ty, body: &Term) -> Result<Term, NoMemory>
    ensures { IfOk result (λ t. t ≡ lambda ty.now (neg body.now)) }
{
    abstraction(alloc, copy_ty(ty)?, negation(alloc, body)?)
}

/// `?x. ~b`
fn some_failure(alloc: Global, ty: &Ty, body: &Term) -> Result<Term, NoMemory>
    ensures { IfOk result (λ t. t ≡ some ty.now (lambda ty.now (neg body.now))) }
{
    existential(alloc, copy_ty(ty)?, &failure(alloc, ty, body)?)
}

/// `ex_intro` with terms by value.
#[tactic(none)]
fn introduced(log: &mut Log, f: Term, u: Term, th: ThmId) -> Result<ThmId, NoMemory>
    requires value { IsGiven log.old.env.sig u (own_ty log.old.env.sig u) }
    requires property { IsProperty log.old.env.sig f (own_ty log.old.env.sig u) }
    requires th { IsThm log.old th.0 }
    requires is { (thm log.old th.0).concl ≡ applied_to f u }
    ensures kept { Extends log.old log.new }
    ensures facts { SameFacts log.old log.new }
    ensures gives { IfOk result (λ r. Gives log.new r.0 (seq (thm log.old th.0).hyps (some (own_ty log.old.env.sig u) f))) }
{
    let whole = log.ex_intro(&f, &u, th);
    drop(u);
    drop(f);
    whole
}

/// From `G : ~b[y]` to `G : ?x. ~b`.
#[tactic(none)]
fn failing(log: &mut Log, n: u64, ty: &Ty, body: &Term, th: ThmId) -> Result<ThmId, NoMemory>
    requires whole { IsFormula log.old.env.sig (all ty.now (lambda ty.now body.now)) }
    requires th { IsThm log.old th.0 }
    requires is { (thm log.old th.0).concl ≡ neg (instantiated body.now (Free n ty.now)) }
    ensures kept { Extends log.old log.new }
    ensures facts { SameFacts log.old log.new }
    ensures gives { IfOk result (λ r. Gives log.new r.0 (seq (thm log.old th.0).hyps (some ty.now (lambda ty.now (neg body.now))))) }
{
    let property = failure(log.allocator(), ty, body)?;
    let value = variable(n, ty)?;
    introduced(log, property, value, th)
}

/// `{~b[y]} : ?x. ~b`
#[tactic(none)]
fn instance(log: &mut Log, n: u64, ty: &Ty, body: &Term) -> Result<ThmId, NoMemory>
    requires { IsFormula log.old.env.sig (all ty.now (lambda ty.now body.now)) }
    ensures kept { Extends log.old log.new }
    ensures facts { SameFacts log.old log.new }
    ensures gives { IfOk result (λ r. Gives log.new r.0 (seq (only (neg (instantiated body.now (Free n ty.now)))) (some ty.now (lambda ty.now (neg body.now))))) }
{
    let part = denial(log.allocator(), n, ty, body)?;
    let fails = log.assume_own(part)?;
    failing(log, n, ty, body, fails)
}

/// From `G : false` to `G - ~b[y] : !x. b`, where the variable is neither in `b` nor in what is left of `G`.
#[tactic(none)]
fn everywhere(log: &mut Log, n: u64, ty: &Ty, body: &Term, th: ThmId) -> Result<ThmId, NoMemory>
    requires whole { IsFormula log.old.env.sig (all ty.now (lambda ty.now body.now)) }
    requires fresh { occurs n ty.now body.now ≡ false }
    requires th { IsThm log.old th.0 }
    requires refuted { (thm log.old th.0).concl ≡ falsum }
    requires lacks { IsTrue (absent n ty.now (set.remove (thm log.old th.0).hyps (neg (instantiated body.now (Free n ty.now))))) }
    ensures kept { Extends log.old log.new }
    ensures facts { SameFacts log.old log.new }
    ensures gives { IfOk result (λ r. Gives log.new r.0 (seq (set.remove (thm log.old th.0).hyps (neg (instantiated body.now (Free n ty.now)))) (all ty.now (lambda ty.now body.now)))) }
{
    let part = opened(log.allocator(), n, ty, body)?;
    let held = log.classical_own(part, th)?;
    log.all_intro(n, ty, held)
}

/// From `G : false` to `G - ~(?x. ~b) : ?x. ~b`.
#[tactic(none)]
fn concluded(log: &mut Log, ty: &Ty, body: &Term, th: ThmId) -> Result<ThmId, NoMemory>
    requires whole { IsFormula log.old.env.sig (all ty.now (lambda ty.now body.now)) }
    requires th { IsThm log.old th.0 }
    requires refuted { (thm log.old th.0).concl ≡ falsum }
    ensures kept { Extends log.old log.new }
    ensures facts { SameFacts log.old log.new }
    ensures gives { IfOk result (λ r. Gives log.new r.0 (seq (set.remove (thm log.old th.0).hyps (neg (some ty.now (lambda ty.now (neg body.now))))) (some ty.now (lambda ty.now (neg body.now))))) }
{
    let whole = some_failure(log.allocator(), ty, body)?;
    log.classical_own(whole, th)
}

/// `{~(!x. b)} : ?x. ~b`
#[tactic(none)]
fn counterexample(log: &mut Log, ty: &Ty, body: &Term) -> Result<ThmId, NoMemory>
    requires { IsFormula log.old.env.sig (all ty.now (lambda ty.now body.now)) }
    ensures kept { Extends log.old log.new }
    ensures facts { SameFacts log.old log.new }
    ensures gives { IfOk result (λ r. Gives log.new r.0 (seq (only (neg (all ty.now (lambda ty.now body.now)))) (some ty.now (lambda ty.now (neg body.now))))) }
{
    let n = fresh(ty, body)?;
    let one = instance(log, n, ty, body)?;
    let clash = denied(log, one)?;
    let whole = everywhere(log, n, ty, body, clash)?;
    let against = denied(log, whole)?;
    concluded(log, ty, body, against)
}

/// `{~(!x. b)} : ~b[c]` for the value `c` that is chosen for `\x. ~b`.
#[tactic(none)]
fn picked(log: &mut Log, ty: &Ty, body: &Term) -> Result<ThmId, NoMemory>
    requires { IsFormula log.old.env.sig (all ty.now (lambda ty.now body.now)) }
    ensures kept { Extends log.old log.new }
    ensures facts { SameFacts log.old log.new }
    ensures gives { IfOk result (λ r. Gives log.new r.0 (seq (only (neg (all ty.now (lambda ty.now body.now)))) (neg (instantiated body.now (chosen ty.now (lambda ty.now (neg body.now))))))) }
{
    let fails = counterexample(log, ty, body)?;
    log.choose(fails)
}

/// From `G : false` to `{~(!x. b)} + (G - ~b[c]) : false` for the value `c` that is chosen for `\x. ~b`. `body` is `b`, in which
/// the bound variable is the index 0.
#[tactic(none)]
pub fn not_all_chosen(log: &mut Log, ty: &Ty, body: &Term, th: ThmId) -> Result<ThmId, NoMemory>
    requires whole { IsFormula log.old.env.sig (all ty.now (lambda ty.now body.now)) }
    requires th { IsThm log.old th.0 }
    requires refuted { (thm log.old th.0).concl ≡ falsum }
    ensures kept { Extends log.old log.new }
    ensures facts { SameFacts log.old log.new }
    ensures gives { IfOk result (λ r. Gives log.new r.0 (seq (set.union (only (neg (all ty.now (lambda ty.now body.now)))) (set.remove (thm log.old th.0).hyps (neg (instantiated body.now (chosen ty.now (lambda ty.now (neg body.now))))))) falsum)) }
{
    let part = picked(log, ty, body)?;
    cut(log, part, th)
}

/// From `{} : c = d` and `G : ~b[c]` to `G : ~b[d]` for the value `c` that is chosen for `\x. ~b`.
#[tactic(none)]
fn at_named(log: &mut Log, ty: &Ty, body: &Term, name: ThmId, th: ThmId) -> Result<ThmId, NoMemory>
    requires whole { IsFormula log.old.env.sig (all ty.now (lambda ty.now body.now)) }
    requires name { IsThm log.old name.0 }
    requires names { thm log.old name.0 ≡ seq set.empty (equal ty.now (chosen ty.now (lambda ty.now (neg body.now))) (right_of (thm log.old name.0).concl)) }
    requires th { IsThm log.old th.0 }
    requires is { (thm log.old th.0).concl ≡ neg (instantiated body.now (chosen ty.now (lambda ty.now (neg body.now)))) }
    ensures kept { Extends log.old log.new }
    ensures facts { SameFacts log.old log.new }
    ensures gives { IfOk result (λ r. Gives log.new r.0 (seq (thm log.old th.0).hyps (neg (instantiated body.now (right_of (thm log.old name.0).concl))))) }
{
    let property = failure(log.allocator(), ty, body)?;
    log.subst_own(property, name, th)
}

/// From `{} : c = d` and `G : false` to `{~(!x. b)} + (G - ~b[d]) : false` for the value `c` that is chosen for `\x. ~b`. `body` is
/// `b`, in which the bound variable is the index 0.
#[tactic(none)]
pub fn not_all_named(
    log: &mut Log,
    ty: &Ty,
    body: &Term,
    name: ThmId,
    th: ThmId,
) -> Result<ThmId, NoMemory>
    requires whole { IsFormula log.old.env.sig (all ty.now (lambda ty.now body.now)) }
    requires name { IsThm log.old name.0 }
    requires names { thm log.old name.0 ≡ seq set.empty (equal ty.now (chosen ty.now (lambda ty.now (neg body.now))) (right_of (thm log.old name.0).concl)) }
    requires th { IsThm log.old th.0 }
    requires refuted { (thm log.old th.0).concl ≡ falsum }
    ensures kept { Extends log.old log.new }
    ensures facts { SameFacts log.old log.new }
    ensures gives { IfOk result (λ r. Gives log.new r.0 (seq (set.union (only (neg (all ty.now (lambda ty.now body.now)))) (set.remove (thm log.old th.0).hyps (neg (instantiated body.now (right_of (thm log.old name.0).concl))))) falsum)) }
{
    let part = picked(log, ty, body)?;
    let there = at_named(log, ty, body, name, part)?;
    cut(log, there, th)
}
