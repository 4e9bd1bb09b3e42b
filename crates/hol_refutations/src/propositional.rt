ghost use Rattle.std.specs.Prelude.{◌≡◌, IfOk};
ghost use Rattle.std.specs.FinSet as set;
ghost use Rattle.hol_terms.specs.Formulas.{IsFormula};
ghost use Rattle.hyp_sets.specs.Sets.{only};
ghost use Rattle.kernel_rules.specs.Connectives.{verum, falsum, neg, conj, disj, imp};
ghost use Rattle.kernel_rules.specs.Rules.{seq};
ghost use Rattle.hol_kernel.specs.Logs.{IsThm, thm};
ghost use Rattle.hol_kernel.specs.Growth.{Extends, Gives, SameFacts};

use crate::denying::{denied, implied};
use hol_derived::cut;
use hol_kernel::{Log, ThmId};
use hol_terms::{Konst, Term};
use kernel_rules::{conjunction, disjunction, implication};
use text_kit::NoMemory;

/// `false`
fn falsehood() -> Term
    ensures { result ≡ falsum }
{
    Term::Con(Konst::False)
}

/// `{~a} + {a} : false`
#[tactic(none)]
pub fn atom(log: &mut Log, a: &Term) -> Result<ThmId, NoMemory>
    requires a { IsFormula log.old.env.sig a.now }
    ensures kept { Extends log.old log.new }
    ensures facts { SameFacts log.old log.new }
    ensures gives { IfOk result (λ r. Gives log.new r.0 (seq (set.union (only (neg a.now)) (only a.now)) falsum)) }
{
    let held = log.assume(a)?;
    denied(log, held)
}

/// `{~true} : false`
#[tactic(none)]
pub fn not_true(log: &mut Log) -> Result<ThmId, NoMemory>
    ensures kept { Extends log.old log.new }
    ensures facts { SameFacts log.old log.new }
    ensures gives { IfOk result (λ r. Gives log.new r.0 (seq (only (neg verum)) falsum)) }
{
    let held = log.true_intro()?;
    denied(log, held)
}

/// `{false} : false`
#[tactic(none)]
pub fn falsity(log: &mut Log) -> Result<ThmId, NoMemory>
    ensures kept { Extends log.old log.new }
    ensures facts { SameFacts log.old log.new }
    ensures gives { IfOk result (λ r. Gives log.new r.0 (seq (only falsum) falsum)) }
{
    log.assume_own(falsehood())
}

/// From `G : false` to `{~~a} + (G - a) : false`.
#[tactic(none)]
pub fn not_not(log: &mut Log, a: &Term, th: ThmId) -> Result<ThmId, NoMemory>
    requires a { IsFormula log.old.env.sig a.now }
    requires th { IsThm log.old th.0 }
    requires refuted { (thm log.old th.0).concl ≡ falsum }
    ensures kept { Extends log.old log.new }
    ensures facts { SameFacts log.old log.new }
    ensures gives { IfOk result (λ r. Gives log.new r.0 (seq (set.union (only (neg (neg a.now))) (set.remove (thm log.old th.0).hyps a.now)) falsum)) }
{
    let absent = log.not_intro(a, th)?;
    denied(log, absent)
}

/// `{t} : t` for `t`, which is `a & b`.
#[tactic(none)]
fn supposed_conj(log: &mut Log, a: &Term, b: &Term) -> Result<ThmId, NoMemory>
    requires a { IsFormula log.old.env.sig a.now }
    requires b { IsFormula log.old.env.sig b.now }
    ensures kept { Extends log.old log.new }
    ensures facts { SameFacts log.old log.new }
    ensures gives { IfOk result (λ r. Gives log.new r.0 (seq (only (conj a.now b.now)) (conj a.now b.now))) }
{
    let whole = conjunction(log.allocator(), a, b)?;
    log.assume_own(whole)
}

/// `{t} : t` for `t`, which is `a | b`.
#[tactic(none)]
fn supposed_disj(log: &mut Log, a: &Term, b: &Term) -> Result<ThmId, NoMemory>
    requires a { IsFormula log.old.env.sig a.now }
    requires b { IsFormula log.old.env.sig b.now }
    ensures kept { Extends log.old log.new }
    ensures facts { SameFacts log.old log.new }
    ensures gives { IfOk result (λ r. Gives log.new r.0 (seq (only (disj a.now b.now)) (disj a.now b.now))) }
{
    let whole = disjunction(log.allocator(), a, b)?;
    log.assume_own(whole)
}

/// `{t} : t` for `t`, which is `a ==> b`.
#[tactic(none)]
fn supposed_imp(log: &mut Log, a: &Term, b: &Term) -> Result<ThmId, NoMemory>
    requires a { IsFormula log.old.env.sig a.now }
    requires b { IsFormula log.old.env.sig b.now }
    ensures kept { Extends log.old log.new }
    ensures facts { SameFacts log.old log.new }
    ensures gives { IfOk result (λ r. Gives log.new r.0 (seq (only (imp a.now b.now)) (imp a.now b.now))) }
{
    let whole = implication(log.allocator(), a, b)?;
    log.assume_own(whole)
}

/// From `G : false` to `{a & b} + (G - a) : false`.
#[tactic(none)]
pub fn and_left(log: &mut Log, a: &Term, b: &Term, th: ThmId) -> Result<ThmId, NoMemory>
    requires a { IsFormula log.old.env.sig a.now }
    requires b { IsFormula log.old.env.sig b.now }
    requires th { IsThm log.old th.0 }
    requires refuted { (thm log.old th.0).concl ≡ falsum }
    ensures kept { Extends log.old log.new }
    ensures facts { SameFacts log.old log.new }
    ensures gives { IfOk result (λ r. Gives log.new r.0 (seq (set.union (only (conj a.now b.now)) (set.remove (thm log.old th.0).hyps a.now)) falsum)) }
{
    let whole = supposed_conj(log, a, b)?;
    let part = log.and_left(whole)?;
    cut(log, part, th)
}

/// From `G : false` to `{a & b} + (G - b) : false`.
#[tactic(none)]
pub fn and_right(log: &mut Log, a: &Term, b: &Term, th: ThmId) -> Result<ThmId, NoMemory>
    requires a { IsFormula log.old.env.sig a.now }
    requires b { IsFormula log.old.env.sig b.now }
    requires th { IsThm log.old th.0 }
    requires refuted { (thm log.old th.0).concl ≡ falsum }
    ensures kept { Extends log.old log.new }
    ensures facts { SameFacts log.old log.new }
    ensures gives { IfOk result (λ r. Gives log.new r.0 (seq (set.union (only (conj a.now b.now)) (set.remove (thm log.old th.0).hyps b.now)) falsum)) }
{
    let whole = supposed_conj(log, a, b)?;
    let part = log.and_right(whole)?;
    cut(log, part, th)
}

/// From `G : false` and `D : false` to `(G - ~a) + (D - ~b) : a & b`.
#[tactic(none)]
fn both(log: &mut Log, a: &Term, b: &Term, left: ThmId, right: ThmId) -> Result<ThmId, NoMemory>
    requires a { IsFormula log.old.env.sig a.now }
    requires b { IsFormula log.old.env.sig b.now }
    requires left { IsThm log.old left.0 }
    requires left_false { (thm log.old left.0).concl ≡ falsum }
    requires right { IsThm log.old right.0 }
    requires right_false { (thm log.old right.0).concl ≡ falsum }
    ensures kept { Extends log.old log.new }
    ensures facts { SameFacts log.old log.new }
    ensures gives { IfOk result (λ r. Gives log.new r.0 (seq (set.union (set.remove (thm log.old left.0).hyps (neg a.now)) (set.remove (thm log.old right.0).hyps (neg b.now))) (conj a.now b.now))) }
{
    let first = log.classical(a, left)?;
    let second = log.classical(b, right)?;
    log.and_intro(first, second)
}

/// From `G : false` and `D : false` to `{~(a & b)} + ((G - ~a) + (D - ~b)) : false`.
#[tactic(none)]
pub fn not_and(
    log: &mut Log,
    a: &Term,
    b: &Term,
    left: ThmId,
    right: ThmId,
) -> Result<ThmId, NoMemory>
    requires a { IsFormula log.old.env.sig a.now }
    requires b { IsFormula log.old.env.sig b.now }
    requires left { IsThm log.old left.0 }
    requires left_false { (thm log.old left.0).concl ≡ falsum }
    requires right { IsThm log.old right.0 }
    requires right_false { (thm log.old right.0).concl ≡ falsum }
    ensures kept { Extends log.old log.new }
    ensures facts { SameFacts log.old log.new }
    ensures gives { IfOk result (λ r. Gives log.new r.0 (seq (set.union (only (neg (conj a.now b.now))) (set.union (set.remove (thm log.old left.0).hyps (neg a.now)) (set.remove (thm log.old right.0).hyps (neg b.now)))) falsum)) }
{
    let whole = both(log, a, b, left, right)?;
    denied(log, whole)
}

/// From `G : false` and `D : false` to `({a | b} + (G - a)) + (D - b) : false`.
#[tactic(none)]
pub fn or_both(
    log: &mut Log,
    a: &Term,
    b: &Term,
    left: ThmId,
    right: ThmId,
) -> Result<ThmId, NoMemory>
    requires a { IsFormula log.old.env.sig a.now }
    requires b { IsFormula log.old.env.sig b.now }
    requires left { IsThm log.old left.0 }
    requires left_false { (thm log.old left.0).concl ≡ falsum }
    requires right { IsThm log.old right.0 }
    requires right_false { (thm log.old right.0).concl ≡ falsum }
    ensures kept { Extends log.old log.new }
    ensures facts { SameFacts log.old log.new }
    ensures gives { IfOk result (λ r. Gives log.new r.0 (seq (set.union (set.union (only (disj a.now b.now)) (set.remove (thm log.old left.0).hyps a.now)) (set.remove (thm log.old right.0).hyps b.now)) falsum)) }
{
    let whole = supposed_disj(log, a, b)?;
    log.or_elim(whole, left, right)
}

/// From `G : false` to `{~(a | b)} + (G - ~a) : false`.
#[tactic(none)]
pub fn not_or_left(log: &mut Log, a: &Term, b: &Term, th: ThmId) -> Result<ThmId, NoMemory>
    requires a { IsFormula log.old.env.sig a.now }
    requires b { IsFormula log.old.env.sig b.now }
    requires th { IsThm log.old th.0 }
    requires refuted { (thm log.old th.0).concl ≡ falsum }
    ensures kept { Extends log.old log.new }
    ensures facts { SameFacts log.old log.new }
    ensures gives { IfOk result (λ r. Gives log.new r.0 (seq (set.union (only (neg (disj a.now b.now))) (set.remove (thm log.old th.0).hyps (neg a.now))) falsum)) }
{
    let part = log.classical(a, th)?;
    let whole = log.or_left(b, part)?;
    denied(log, whole)
}

/// From `G : false` to `{~(a | b)} + (G - ~b) : false`.
#[tactic(none)]
pub fn not_or_right(log: &mut Log, a: &Term, b: &Term, th: ThmId) -> Result<ThmId, NoMemory>
    requires a { IsFormula log.old.env.sig a.now }
    requires b { IsFormula log.old.env.sig b.now }
    requires th { IsThm log.old th.0 }
    requires refuted { (thm log.old th.0).concl ≡ falsum }
    ensures kept { Extends log.old log.new }
    ensures facts { SameFacts log.old log.new }
    ensures gives { IfOk result (λ r. Gives log.new r.0 (seq (set.union (only (neg (disj a.now b.now))) (set.remove (thm log.old th.0).hyps (neg b.now))) falsum)) }
{
    let part = log.classical(b, th)?;
    let whole = log.or_right(a, part)?;
    denied(log, whole)
}

/// From `G : a` to `{a ==> b} + G : b`.
#[tactic(none)]
fn detached(log: &mut Log, a: &Term, b: &Term, th: ThmId) -> Result<ThmId, NoMemory>
    requires a { IsFormula log.old.env.sig a.now }
    requires b { IsFormula log.old.env.sig b.now }
    requires th { IsThm log.old th.0 }
    requires is { (thm log.old th.0).concl ≡ a.now }
    ensures kept { Extends log.old log.new }
    ensures facts { SameFacts log.old log.new }
    ensures gives { IfOk result (λ r. Gives log.new r.0 (seq (set.union (only (imp a.now b.now)) (thm log.old th.0).hyps) b.now)) }
{
    let whole = supposed_imp(log, a, b)?;
    log.imp_elim(whole, th)
}

/// From `G : false` and `D : false` to `({a ==> b} + (G - ~a)) + (D - b) : false`.
#[tactic(none)]
pub fn implies(
    log: &mut Log,
    a: &Term,
    b: &Term,
    left: ThmId,
    right: ThmId,
) -> Result<ThmId, NoMemory>
    requires a { IsFormula log.old.env.sig a.now }
    requires b { IsFormula log.old.env.sig b.now }
    requires left { IsThm log.old left.0 }
    requires left_false { (thm log.old left.0).concl ≡ falsum }
    requires right { IsThm log.old right.0 }
    requires right_false { (thm log.old right.0).concl ≡ falsum }
    ensures kept { Extends log.old log.new }
    ensures facts { SameFacts log.old log.new }
    ensures gives { IfOk result (λ r. Gives log.new r.0 (seq (set.union (set.union (only (imp a.now b.now)) (set.remove (thm log.old left.0).hyps (neg a.now))) (set.remove (thm log.old right.0).hyps b.now)) falsum)) }
{
    let first = log.classical(a, left)?;
    let second = detached(log, a, b, first)?;
    cut(log, second, right)
}

/// From `G : false` to `{~(a ==> b)} + ((G - ~b) - a) : false`: `a` and `~b` are both taken out, and either may be missing.
#[tactic(none)]
pub fn not_implies(log: &mut Log, a: &Term, b: &Term, th: ThmId) -> Result<ThmId, NoMemory>
    requires a { IsFormula log.old.env.sig a.now }
    requires b { IsFormula log.old.env.sig b.now }
    requires th { IsThm log.old th.0 }
    requires refuted { (thm log.old th.0).concl ≡ falsum }
    ensures kept { Extends log.old log.new }
    ensures facts { SameFacts log.old log.new }
    ensures gives { IfOk result (λ r. Gives log.new r.0 (seq (set.union (only (neg (imp a.now b.now))) (set.remove (set.remove (thm log.old th.0).hyps (neg b.now)) a.now)) falsum)) }
{
    let whole = implied(log, a, b, th)?;
    denied(log, whole)
}
