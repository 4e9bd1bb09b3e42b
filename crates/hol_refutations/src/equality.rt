ghost use Rattle.std.specs.Prelude.{◌≡◌, IfOk, [], ◌∷◌};
ghost use Rattle.std.specs.FinSet as set;
ghost use Rattle.hol_terms.specs.Formulas.{IsFormula};
ghost use Rattle.hol_terms.specs.Types.{bool_ty};
ghost use Rattle.hyp_sets.specs.Sets.{only};
ghost use Rattle.kernel_rules.specs.Connectives.{falsum, neg, equal};
ghost use Rattle.kernel_rules.specs.Rules.{seq};
ghost use Rattle.hol_kernel.specs.Logs.{IsThm, thm};
ghost use Rattle.hol_kernel.specs.Growth.{Extends, Gives, SameFacts};

use crate::denying::{denied, implied};
use hol_derived::{cut, replace_at};
use hol_kernel::{Log, ThmId};
use hol_terms::{Term, Ty};
use kernel_rules::equation;
use std::alloc::Global;
use text_kit::{NoMemory, Rows};

/// The type of formulas.
pub(crate) fn bool_type() -> Ty
    ensures { result ≡ bool_ty }
{
    Ty::Base(0)
}

/// The path to a term itself.
fn at_root(alloc: Global) -> Rows<u8>
    ensures { result ≡ [] }
{
    Rows::begin(alloc)
}

/// The path to what a negation denies.
fn in_negation(alloc: Global) -> Result<Rows<u8>, NoMemory>
    ensures { IfOk result (λ p. p ≡ 1 ∷ []) }
{
    let mut path = Rows::begin(alloc);
    path.push(1)?;
    Ok(path)
}

/// `{a = b} : a = b`, the sides formulas.
#[tactic(none)]
fn supposed_equal(log: &mut Log, a: &Term, b: &Term) -> Result<ThmId, NoMemory>
    requires { IsFormula log.old.env.sig (equal bool_ty a.now b.now) }
    ensures kept { Extends log.old log.new }
    ensures facts { SameFacts log.old log.new }
    ensures gives { IfOk result (λ r. Gives log.new r.0 (seq (only (equal bool_ty a.now b.now)) (equal bool_ty a.now b.now))) }
{
    let whole = equation(log.allocator(), bool_type(), a, b)?;
    log.assume_own(whole)
}

/// From `G : a` to `{a = b} + G : b`.
#[tactic(none)]
fn carried(log: &mut Log, a: &Term, b: &Term, th: ThmId) -> Result<ThmId, NoMemory>
    requires whole { IsFormula log.old.env.sig (equal bool_ty a.now b.now) }
    requires th { IsThm log.old th.0 }
    requires is { (thm log.old th.0).concl ≡ a.now }
    ensures kept { Extends log.old log.new }
    ensures facts { SameFacts log.old log.new }
    ensures gives { IfOk result (λ r. Gives log.new r.0 (seq (set.union (only (equal bool_ty a.now b.now)) (thm log.old th.0).hyps) b.now)) }
{
    let path = at_root(log.allocator());
    let whole = supposed_equal(log, a, b)?;
    replace_at(log, whole, th, &path)
}

/// From `G : ~a` to `{a = b} + G : ~b`.
#[tactic(none)]
fn carried_denial(log: &mut Log, a: &Term, b: &Term, th: ThmId) -> Result<ThmId, NoMemory>
    requires whole { IsFormula log.old.env.sig (equal bool_ty a.now b.now) }
    requires th { IsThm log.old th.0 }
    requires is { (thm log.old th.0).concl ≡ neg a.now }
    ensures kept { Extends log.old log.new }
    ensures facts { SameFacts log.old log.new }
    ensures gives { IfOk result (λ r. Gives log.new r.0 (seq (set.union (only (equal bool_ty a.now b.now)) (thm log.old th.0).hyps) (neg b.now))) }
{
    let path = in_negation(log.allocator())?;
    let whole = supposed_equal(log, a, b)?;
    replace_at(log, whole, th, &path)
}

/// From `G : false` and `D : false` to `({a = b} + (G - ~a)) + (D - b) : false`, the sides formulas.
#[tactic(none)]
pub fn equal_first(
    log: &mut Log,
    a: &Term,
    b: &Term,
    left: ThmId,
    right: ThmId,
) -> Result<ThmId, NoMemory>
    requires a { IsFormula log.old.env.sig a.now }
    requires whole { IsFormula log.old.env.sig (equal bool_ty a.now b.now) }
    requires left { IsThm log.old left.0 }
    requires left_false { (thm log.old left.0).concl ≡ falsum }
    requires right { IsThm log.old right.0 }
    requires right_false { (thm log.old right.0).concl ≡ falsum }
    ensures kept { Extends log.old log.new }
    ensures facts { SameFacts log.old log.new }
    ensures gives { IfOk result (λ r. Gives log.new r.0 (seq (set.union (set.union (only (equal bool_ty a.now b.now)) (set.remove (thm log.old left.0).hyps (neg a.now))) (set.remove (thm log.old right.0).hyps b.now)) falsum)) }
{
    let held = log.classical(a, left)?;
    let there = carried(log, a, b, held)?;
    cut(log, there, right)
}

/// From `G : false` and `D : false` to `({a = b} + (G - a)) + (D - ~b) : false`, the sides formulas.
#[tactic(none)]
pub fn equal_second(
    log: &mut Log,
    a: &Term,
    b: &Term,
    left: ThmId,
    right: ThmId,
) -> Result<ThmId, NoMemory>
    requires a { IsFormula log.old.env.sig a.now }
    requires whole { IsFormula log.old.env.sig (equal bool_ty a.now b.now) }
    requires left { IsThm log.old left.0 }
    requires left_false { (thm log.old left.0).concl ≡ falsum }
    requires right { IsThm log.old right.0 }
    requires right_false { (thm log.old right.0).concl ≡ falsum }
    ensures kept { Extends log.old log.new }
    ensures facts { SameFacts log.old log.new }
    ensures gives { IfOk result (λ r. Gives log.new r.0 (seq (set.union (set.union (only (equal bool_ty a.now b.now)) (set.remove (thm log.old left.0).hyps a.now)) (set.remove (thm log.old right.0).hyps (neg b.now))) falsum)) }
{
    let absent = log.not_intro(a, left)?;
    let there = carried_denial(log, a, b, absent)?;
    cut(log, there, right)
}

/// From `G : false` and `D : false` to `((G - ~b) - a) + ((D - ~a) - b) : a = b`.
#[tactic(none)]
fn alike(log: &mut Log, a: &Term, b: &Term, left: ThmId, right: ThmId) -> Result<ThmId, NoMemory>
    requires a { IsFormula log.old.env.sig a.now }
    requires b { IsFormula log.old.env.sig b.now }
    requires left { IsThm log.old left.0 }
    requires left_false { (thm log.old left.0).concl ≡ falsum }
    requires right { IsThm log.old right.0 }
    requires right_false { (thm log.old right.0).concl ≡ falsum }
    ensures kept { Extends log.old log.new }
    ensures facts { SameFacts log.old log.new }
    ensures gives { IfOk result (λ r. Gives log.new r.0 (seq (set.union (set.remove (set.remove (thm log.old left.0).hyps (neg b.now)) a.now) (set.remove (set.remove (thm log.old right.0).hyps (neg a.now)) b.now)) (equal bool_ty a.now b.now))) }
{
    let there = implied(log, a, b, left)?;
    let back = implied(log, b, a, right)?;
    log.iff(there, back)
}

/// From `G : false` and `D : false` to `{~(a = b)} + (((G - ~b) - a) + ((D - ~a) - b)) : false`, the sides formulas: from refutations of
/// `a` and of `b`, or of `~b` and of `~a`.
#[tactic(none)]
pub fn not_equal(
    log: &mut Log,
    a: &Term,
    b: &Term,
    left: ThmId,
    right: ThmId,
) -> Result<ThmId, NoMemory>
    requires a { IsFormula log.old.env.sig a.now }
    requires b { IsFormula log.old.env.sig b.now }
    requires left { IsThm log.old left.0 }
    requires left_false { (thm log.old left.0).concl ≡ falsum }
    requires right { IsThm log.old right.0 }
    requires right_false { (thm log.old right.0).concl ≡ falsum }
    ensures kept { Extends log.old log.new }
    ensures facts { SameFacts log.old log.new }
    ensures gives { IfOk result (λ r. Gives log.new r.0 (seq (set.union (only (neg (equal bool_ty a.now b.now))) (set.union (set.remove (set.remove (thm log.old left.0).hyps (neg b.now)) a.now) (set.remove (set.remove (thm log.old right.0).hyps (neg a.now)) b.now))) falsum)) }
{
    let whole = alike(log, a, b, left, right)?;
    denied(log, whole)
}
