ghost use Rattle.std.specs.Prelude.{◌≡◌, IfOk};
ghost use Rattle.std.specs.FinSet as set;
ghost use Rattle.hol_terms.specs.Formulas.{IsFormula};
ghost use Rattle.hyp_sets.specs.Sets.{only};
ghost use Rattle.kernel_rules.specs.Connectives.{falsum, neg, all, some, applied_to};
ghost use Rattle.kernel_rules.specs.Rules.{seq};
ghost use Rattle.hol_kernel.specs.Logs.{IsThm, thm};
ghost use Rattle.hol_kernel.specs.Growth.{Extends, Gives, SameFacts};
ghost use Rattle.hol_kernel.specs.Conditions.{own_ty, IsGiven, IsProperty};

use crate::denying::denied;
use hol_derived::cut;
use hol_kernel::{Log, ThmId};
use hol_terms::{Term, Ty, copy_ty};
use kernel_rules::universal;
use std::alloc::Global;
use text_kit::NoMemory;

/// `!x. f@x`
fn every(alloc: Global, ty: &Ty, f: &Term) -> Result<Term, NoMemory>
    ensures { IfOk result (λ t. t ≡ all ty.now f.now) }
{
    universal(alloc, copy_ty(ty)?, f)
}

/// `{t} : t` for `t`, which is `!x. f@x`.
#[tactic(none)]
fn supposed_all(log: &mut Log, ty: &Ty, f: &Term) -> Result<ThmId, NoMemory>
    requires { IsFormula log.old.env.sig (all ty.now f.now) }
    ensures kept { Extends log.old log.new }
    ensures facts { SameFacts log.old log.new }
    ensures gives { IfOk result (λ r. Gives log.new r.0 (seq (only (all ty.now f.now)) (all ty.now f.now))) }
{
    let whole = every(log.allocator(), ty, f)?;
    log.assume_own(whole)
}

/// From `G : false` to `{!x. f@x} + (G - f@u) : false` for a term `u` of the type of `x`.
#[tactic(none)]
pub fn all_at(log: &mut Log, ty: &Ty, f: &Term, u: &Term, th: ThmId) -> Result<ThmId, NoMemory>
    requires whole { IsFormula log.old.env.sig (all ty.now f.now) }
    requires value { IsGiven log.old.env.sig u.now ty.now }
    requires th { IsThm log.old th.0 }
    requires refuted { (thm log.old th.0).concl ≡ falsum }
    ensures kept { Extends log.old log.new }
    ensures facts { SameFacts log.old log.new }
    ensures gives { IfOk result (λ r. Gives log.new r.0 (seq (set.union (only (all ty.now f.now)) (set.remove (thm log.old th.0).hyps (applied_to f.now u.now))) falsum)) }
{
    let whole = supposed_all(log, ty, f)?;
    let part = log.all_elim(u, whole)?;
    cut(log, part, th)
}

/// From `G : false` to `{~(?x. f@x)} + (G - ~f@u) : false`, where `part` is `f@u`.
#[tactic(none)]
pub fn not_some_at(
    log: &mut Log,
    f: &Term,
    u: &Term,
    part: &Term,
    th: ThmId,
) -> Result<ThmId, NoMemory>
    requires part { IsFormula log.old.env.sig part.now }
    requires is { part.now ≡ applied_to f.now u.now }
    requires value { IsGiven log.old.env.sig u.now (own_ty log.old.env.sig u.now) }
    requires property { IsProperty log.old.env.sig f.now (own_ty log.old.env.sig u.now) }
    requires th { IsThm log.old th.0 }
    requires refuted { (thm log.old th.0).concl ≡ falsum }
    ensures kept { Extends log.old log.new }
    ensures facts { SameFacts log.old log.new }
    ensures gives { IfOk result (λ r. Gives log.new r.0 (seq (set.union (only (neg (some (own_ty log.old.env.sig u.now) f.now))) (set.remove (thm log.old th.0).hyps (neg part.now))) falsum)) }
{
    let held = log.classical(part, th)?;
    let whole = log.ex_intro(f, u, held)?;
    denied(log, whole)
}
