ghost use Rattle.std.specs.Prelude.{◌≡◌, IfOk, IsTrue, Some, [], ◌∷◌};
ghost use Rattle.std.specs.FinSet as set;
ghost use Rattle.hol_terms.specs.Formulas.{IsFormula};
ghost use Rattle.hyp_sets.specs.Sets.{only};
ghost use Rattle.kernel_rules.specs.Connectives.{falsum, neg, equal, head_ty, is_equal, is_neg, left_of, right_of};
ghost use Rattle.kernel_rules.specs.Rules.{seq};
ghost use Rattle.hol_kernel.specs.Logs.{IsThm, thm};
ghost use Rattle.hol_kernel.specs.Growth.{Extends, Gives, SameFacts};
ghost use Rattle.hol_derived.specs.Paths.{part_at, replaced_at};
ghost use Rattle.hol_clauses.specs.Literals.{denied, source, target, with_atom};

use crate::TypedLiteral;
use hol_derived::replace_at;
use hol_kernel::{Log, ThmId};
use hol_terms::{Term, copy};
use kernel_rules::{left, negation, right};
use std::alloc::Global;
use text_kit::{NoMemory, Rows};

/// The path to the left side of an equation.
fn to_left(alloc: Global) -> Result<Rows<u8>, NoMemory>
    ensures { IfOk result (λ p. p ≡ 0 ∷ (1 ∷ [])) }
{
    let mut path = Rows::begin(alloc);
    path.push(0)?;
    path.push(1)?;
    Ok(path)
}

/// From `G : s = t` to `G : t = s`.
#[tactic(none)]
pub fn turned_round(log: &mut Log, eq: ThmId) -> Result<ThmId, NoMemory>
    requires eq { IsThm log.old eq.0 }
    requires is { IsTrue (is_equal (thm log.old eq.0).concl) }
    ensures kept { Extends log.old log.new }
    ensures facts { SameFacts log.old log.new }
    ensures gives { IfOk result (λ th. Gives log.new th.0 (seq (thm log.old eq.0).hyps (equal (head_ty (thm log.old eq.0).concl) (right_of (thm log.old eq.0).concl) (left_of (thm log.old eq.0).concl)))) }
{
    let path = to_left(log.allocator())?;
    let same = side_itself(log, eq)?;
    replace_at(log, eq, same, &path)
}

/// `{} : s = s` of the left side of an equation.
#[tactic(none)]
fn side_itself(log: &mut Log, eq: ThmId) -> Result<ThmId, NoMemory>
    requires eq { IsThm log.old eq.0 }
    requires is { IsTrue (is_equal (thm log.old eq.0).concl) }
    ensures kept { Extends log.old log.new }
    ensures facts { SameFacts log.old log.new }
    ensures gives { IfOk result (λ th. Gives log.new th.0 (seq set.empty (equal (head_ty (thm log.old eq.0).concl) (left_of (thm log.old eq.0).concl) (left_of (thm log.old eq.0).concl)))) }
{
    let side = copy(left(log.conclusion(eq)))?;
    let same = log.refl(&side);
    drop(side);
    same
}

/// `1` before a path.
fn in_negation(alloc: Global, path: &[u8]) -> Result<Rows<u8>, NoMemory>
    ensures { IfOk result (λ p. p ≡ 1 ∷ path.now) }
{
    let mut longer = Rows::begin(alloc);
    longer.push(1)?;
    for number in path {
        longer.push(*number)?;
    }
    Ok(longer)
}

/// From `G : s = t` and `D : false`, where the atom of `l` has `s` at the path, to `(G + (D - d)) + {d'} : false`, `d` the
/// denied literal and `d'` the same with `t` at the path.
pub fn rewrite(
    log: &mut Log,
    eq: ThmId,
    l: &TypedLiteral,
    path: &Rows<u8>,
    th: ThmId,
) -> Result<ThmId, NoMemory>
    requires eq { IsThm log.old eq.0 }
    requires is { IsTrue (is_equal (thm log.old eq.0).concl) }
    requires atom { IsFormula log.old.env.sig l.now.atom }
    requires part { part_at path.now l.now.atom ≡ Some (left_of (thm log.old eq.0).concl) }
    requires th { IsThm log.old th.0 }
    requires false_is { (thm log.old th.0).concl ≡ falsum }
    ensures kept { Extends log.old log.new }
    ensures facts { SameFacts log.old log.new }
    ensures gives { IfOk result (λ r. Gives log.new r.0 (seq (set.union (set.union (thm log.old eq.0).hyps (set.remove (thm log.old th.0).hyps (denied l.now))) (only (denied (with_atom l.now (replaced_at path.now (right_of (thm log.old eq.0).concl) l.now.atom))))) falsum)) }
{
    if l.positive {
        in_atom(log, eq, &l.atom, path, th)
    } else {
        in_denied(log, eq, &l.atom, path, th)
    }
}

/// The same for a literal that is an atom.
#[tactic(none)]
fn in_atom(
    log: &mut Log,
    eq: ThmId,
    a: &Term,
    path: &Rows<u8>,
    th: ThmId,
) -> Result<ThmId, NoMemory>
    requires eq { IsThm log.old eq.0 }
    requires is { IsTrue (is_equal (thm log.old eq.0).concl) }
    requires atom { IsFormula log.old.env.sig a.now }
    requires part { part_at path.now a.now ≡ Some (left_of (thm log.old eq.0).concl) }
    requires th { IsThm log.old th.0 }
    requires false_is { (thm log.old th.0).concl ≡ falsum }
    ensures kept { Extends log.old log.new }
    ensures facts { SameFacts log.old log.new }
    ensures gives { IfOk result (λ r. Gives log.new r.0 (seq (set.union (set.union (thm log.old eq.0).hyps (set.remove (thm log.old th.0).hyps (neg a.now))) (only (neg (replaced_at path.now (right_of (thm log.old eq.0).concl) a.now)))) falsum)) }
{
    let held = log.classical(a, th)?;
    let there = replace_at(log, eq, held, path)?;
    let against = denial(log, there)?;
    log.not_elim(against, there)
}

/// `{~c} : ~c` of `G : c`.
#[tactic(none)]
fn denial(log: &mut Log, th: ThmId) -> Result<ThmId, NoMemory>
    requires { IsThm log.old th.0 }
    ensures kept { Extends log.old log.new }
    ensures facts { SameFacts log.old log.new }
    ensures gives { IfOk result (λ r. Gives log.new r.0 (seq (only (neg (thm log.old th.0).concl)) (neg (thm log.old th.0).concl))) }
{
    let other = negation(log.allocator(), log.conclusion(th))?;
    log.assume_own(other)
}

/// The same for a literal that is a negation.
#[tactic(none)]
fn in_denied(
    log: &mut Log,
    eq: ThmId,
    a: &Term,
    path: &Rows<u8>,
    th: ThmId,
) -> Result<ThmId, NoMemory>
    requires eq { IsThm log.old eq.0 }
    requires is { IsTrue (is_equal (thm log.old eq.0).concl) }
    requires atom { IsFormula log.old.env.sig a.now }
    requires part { part_at path.now a.now ≡ Some (left_of (thm log.old eq.0).concl) }
    requires th { IsThm log.old th.0 }
    requires false_is { (thm log.old th.0).concl ≡ falsum }
    ensures kept { Extends log.old log.new }
    ensures facts { SameFacts log.old log.new }
    ensures gives { IfOk result (λ r. Gives log.new r.0 (seq (set.union (set.union (thm log.old eq.0).hyps (set.remove (thm log.old th.0).hyps a.now)) (only (replaced_at path.now (right_of (thm log.old eq.0).concl) a.now))) falsum)) }
{
    let longer = in_negation(log.allocator(), path.as_slice())?;
    let absent = log.not_intro(a, th)?;
    let there = replace_at(log, eq, absent, &longer)?;
    let against = supposition(log, there)?;
    log.not_elim(there, against)
}

/// `{c} : c` of `G : ~c`.
#[tactic(none)]
fn supposition(log: &mut Log, th: ThmId) -> Result<ThmId, NoMemory>
    requires th { IsThm log.old th.0 }
    requires is { IsTrue (is_neg (thm log.old th.0).concl) }
    ensures kept { Extends log.old log.new }
    ensures facts { SameFacts log.old log.new }
    ensures gives { IfOk result (λ r. Gives log.new r.0 (seq (only (right_of (thm log.old th.0).concl)) (right_of (thm log.old th.0).concl))) }
{
    let atom = copy(right(log.conclusion(th)))?;
    log.assume_own(atom)
}

/// From `G : false` to `G - ~e : e` for an equation `e`, or to the same with its sides exchanged.
#[tactic(none)]
fn equation_of(log: &mut Log, e: &Term, swapped: bool, th: ThmId) -> Result<ThmId, NoMemory>
    requires e { IsFormula log.old.env.sig e.now }
    requires is { IsTrue (is_equal e.now) }
    requires th { IsThm log.old th.0 }
    requires false_is { (thm log.old th.0).concl ≡ falsum }
    ensures kept { Extends log.old log.new }
    ensures facts { SameFacts log.old log.new }
    ensures gives { IfOk result (λ r. Gives log.new r.0 (seq (set.remove (thm log.old th.0).hyps (neg e.now)) (equal (head_ty e.now) (source swapped e.now) (target swapped e.now)))) }
{
    let eq = log.classical(e, th)?;
    if swapped {
        turned_round(log, eq)
    } else {
        Ok(eq)
    }
}

/// From `G : false` and `D : false` to `((G - ~e) + (D - d)) + {d'} : false`: the theorem of what paramodulation makes of
/// a clause with the equation `e` and of one with the literal `l`, whose atom has one side of `e`, the right one where it
/// is `swapped`, at the path. `d` is the denied literal and `d'` the same with the other side there
/// (`paramodulant_lands`).
#[tactic(none)]
pub fn paramodulate(
    log: &mut Log,
    e: &Term,
    swapped: bool,
    left: ThmId,
    l: &TypedLiteral,
    path: &Rows<u8>,
    right: ThmId,
) -> Result<ThmId, NoMemory>
    requires e { IsFormula log.old.env.sig e.now }
    requires is { IsTrue (is_equal e.now) }
    requires left { IsThm log.old left.0 }
    requires left_false { (thm log.old left.0).concl ≡ falsum }
    requires atom { IsFormula log.old.env.sig l.now.atom }
    requires part { part_at path.now l.now.atom ≡ Some (source swapped e.now) }
    requires right { IsThm log.old right.0 }
    requires right_false { (thm log.old right.0).concl ≡ falsum }
    ensures kept { Extends log.old log.new }
    ensures facts { SameFacts log.old log.new }
    ensures gives { IfOk result (λ r. Gives log.new r.0 (seq (set.union (set.union (set.remove (thm log.old left.0).hyps (neg e.now)) (set.remove (thm log.old right.0).hyps (denied l.now))) (only (denied (with_atom l.now (replaced_at path.now (target swapped e.now) l.now.atom))))) falsum)) }
{
    let eq = equation_of(log, e, swapped, left)?;
    rewrite(log, eq, l, path, right)
}
