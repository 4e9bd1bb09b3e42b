ghost use Rattle.std.specs.Prelude.{◌≡◌, ◌++◌, ◌∷◌, [], List, Some, slice_set, IsTrue, IfOk};
ghost use Rattle.std.specs.List.{remove};
ghost use Rattle.std.specs.FinSet as set;
ghost use Rattle.hol_terms.specs.Formulas.{IsFormula};
ghost use Rattle.hyp_sets.specs.Sets.{only};
ghost use Rattle.kernel_rules.specs.Connectives.{falsum, neg, is_equal};
ghost use Rattle.kernel_rules.specs.Rules.{seq};
ghost use Rattle.hol_kernel.specs.Logs.{IsThm, thm};
ghost use Rattle.hol_kernel.specs.Growth.{Extends, SameFacts};
ghost use Rattle.hol_derived.specs.Paths.{part_at};
ghost use Rattle.hol_terms.specs.declared.literal.TypedLiteral.{TypedLiteral};
ghost use Rattle.hol_clauses.specs.Literals.{source, target};
ghost use Rattle.hol_lift.specs.inner.Typed.{AllFormulas, Last, Joins, Opposed, Rewrites, rewritten as rewritten_literal, Paramodulated};

use crate::dropping::{drop_one, drop_refuted};
use hol_clauses::{TypedLiteral, paramodulate, resolve};
use hol_derived::replaced;
use hol_kernel::{Log, ThmId};
use hol_terms::Term;
use kernel_rules::{left as left_side, right as right_side};
use std::alloc::Global;
use text_kit::{NoMemory, Rows};

/// From theorems of two clauses, the one with a literal that is the negation of a literal of the other, to the theorem of
/// what is left of both, without the literals that never hold.
#[tactic(none)]
pub fn resolve_typed(
    log: &mut Log,
    p: &Rows<TypedLiteral>,
    i: usize,
    left: ThmId,
    q: &Rows<TypedLiteral>,
    j: usize,
    right: ThmId,
) -> Result<ThmId, NoMemory>
    requires opposed { Opposed p.now i q.now j }
    requires left_formulas { AllFormulas log.old.env.sig p.now }
    requires right_formulas { AllFormulas log.old.env.sig q.now }
    requires left { IsThm log.old left.0 }
    requires right { IsThm log.old right.0 }
    requires left_false { (thm log.old left.0).concl ≡ falsum }
    requires right_false { (thm log.old right.0).concl ≡ falsum }
    ensures kept { Extends log.old log.new }
    ensures facts { SameFacts log.old log.new }
    ensures gives { IfOk result (λ r. (c : List TypedLiteral) → Last (remove p.now i ++ remove q.now j) c → Joins log.old log.new left.0 p.now right.0 q.now r.0 c) }
{
    let resolved = resolve(log, &p.at(i).atom, left, right)?;
    let less = drop_refuted(log, p.as_slice(), resolved)?;
    drop_refuted(log, q.as_slice(), less)
}

/// The other side of an equation.
fn other_side(e: &Term, swapped: bool) -> &Term
    ensures { result.now ≡ target swapped e.now }
{
    if swapped { left_side(e) } else { right_side(e) }
}

/// The literal with the other side of the equation at the path.
fn rewritten(
    alloc: Global,
    e: &Term,
    swapped: bool,
    l: &TypedLiteral,
    path: &Rows<u8>,
) -> Result<TypedLiteral, NoMemory>
    ensures { IfOk result (λ m. m ≡ rewritten_literal e.now swapped path.now l.now) }
{
    Ok(TypedLiteral {
        positive: l.positive,
        atom: replaced(alloc, path.as_slice(), other_side(e, swapped), &l.atom)?,
    })
}

/// A paramodulation, and the rewritten literal dropped where it is `~(t = t)`.
#[tactic(none)]
fn paramodulate_literal(
    log: &mut Log,
    alloc: Global,
    e: &Term,
    swapped: bool,
    left: ThmId,
    l: &TypedLiteral,
    path: &Rows<u8>,
    right: ThmId,
) -> Result<ThmId, NoMemory>
    requires e { IsFormula log.old.env.sig e.now }
    requires is { IsTrue (is_equal e.now) }
    requires left { IsThm log.old left.0 }
    requires left_false { (thm log.old left.0).concl ≡ falsum }
    requires atom { IsFormula log.old.env.sig l.now.atom }
    requires part { part_at path.now l.now.atom ≡ Some (source swapped e.now) }
    requires right { IsThm log.old right.0 }
    requires right_false { (thm log.old right.0).concl ≡ falsum }
    ensures kept { Extends log.old log.new }
    ensures facts { SameFacts log.old log.new }
    ensures gives { IfOk result (λ r. Paramodulated log.old log.new e.now left.0 l.now (rewritten_literal e.now swapped path.now l.now) right.0 r.0) }
{
    let made = paramodulate(log, e, swapped, left, l, path, right)?;
    let changed = rewritten(alloc, e, swapped, l, path)?;
    drop_one(log, &changed, made)
}

/// From theorems of two clauses, the one with an equation and the other with a literal that has one side of it at the
/// path, to the theorem of what is left of both with the other side there, without the literals that never hold.
#[tactic(none)]
pub fn paramodulate_typed(
    log: &mut Log,
    alloc: Global,
    p: &Rows<TypedLiteral>,
    i: usize,
    swapped: bool,
    left: ThmId,
    q: &Rows<TypedLiteral>,
    j: usize,
    path: &Rows<u8>,
    right: ThmId,
) -> Result<ThmId, NoMemory>
    requires rewrites { Rewrites p.now i swapped q.now j path.now }
    requires left_formulas { AllFormulas log.old.env.sig p.now }
    requires right_formulas { AllFormulas log.old.env.sig q.now }
    requires left { IsThm log.old left.0 }
    requires right { IsThm log.old right.0 }
    requires left_false { (thm log.old left.0).concl ≡ falsum }
    requires right_false { (thm log.old right.0).concl ≡ falsum }
    ensures kept { Extends log.old log.new }
    ensures facts { SameFacts log.old log.new }
    ensures gives { IfOk result (λ r. (w : Rewrites p.now i swapped q.now j path.now) (c : List TypedLiteral) → Last (remove p.now i ++ slice_set q.now j (rewritten_literal w.equation swapped path.now w.into)) c → Joins log.old log.new left.0 p.now right.0 q.now r.0 c) }
{
    let made = paramodulate_literal(
        log,
        alloc,
        &p.at(i).atom,
        swapped,
        left,
        q.at(j),
        path,
        right,
    )?;
    let less = drop_refuted(log, p.as_slice(), made)?;
    drop_refuted(log, q.as_slice(), less)
}
