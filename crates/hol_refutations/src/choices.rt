ghost use Rattle.std.specs.Prelude.{◌≡◌, IfOk};
ghost use Rattle.std.specs.FinSet as set;
ghost use Rattle.hol_terms.specs.Formulas.{IsFormula};
ghost use Rattle.hyp_sets.specs.Sets.{only};
ghost use Rattle.kernel_rules.specs.Connectives.{falsum, equal, some, chosen, applied_to, right_of};
ghost use Rattle.kernel_rules.specs.Rules.{seq};
ghost use Rattle.hol_kernel.specs.Logs.{IsThm, thm};
ghost use Rattle.hol_kernel.specs.Growth.{Extends, Gives, SameFacts};

use hol_derived::cut;
use hol_kernel::{Log, ThmId};
use hol_terms::{Term, Ty, copy_ty};
use kernel_rules::existential;
use std::alloc::Global;
use text_kit::NoMemory;

/// `?x. f@x`
fn exists(alloc: Global, ty: &Ty, f: &Term) -> Result<Term, NoMemory>
    ensures { IfOk result (λ t. t ≡ some ty.now f.now) }
{
    existential(alloc, copy_ty(ty)?, f)
}

/// `{t} : t` for `t`, which is `?x. f@x`.
#[tactic(none)]
fn supposed_some(log: &mut Log, ty: &Ty, f: &Term) -> Result<ThmId, NoMemory>
    requires { IsFormula log.old.env.sig (some ty.now f.now) }
    ensures kept { Extends log.old log.new }
    ensures facts { SameFacts log.old log.new }
    ensures gives { IfOk result (λ r. Gives log.new r.0 (seq (only (some ty.now f.now)) (some ty.now f.now))) }
{
    let whole = exists(log.allocator(), ty, f)?;
    log.assume_own(whole)
}

/// `{?x. f@x} : f@c` for the value `c` that is chosen for `f`.
#[tactic(none)]
fn picked(log: &mut Log, ty: &Ty, f: &Term) -> Result<ThmId, NoMemory>
    requires { IsFormula log.old.env.sig (some ty.now f.now) }
    ensures kept { Extends log.old log.new }
    ensures facts { SameFacts log.old log.new }
    ensures gives { IfOk result (λ r. Gives log.new r.0 (seq (only (some ty.now f.now)) (applied_to f.now (chosen ty.now f.now)))) }
{
    let whole = supposed_some(log, ty, f)?;
    log.choose(whole)
}

/// From `G : false` to `{?x. f@x} + (G - f@c) : false` for the value `c` that is chosen for `f`.
#[tactic(none)]
pub fn some_chosen(log: &mut Log, ty: &Ty, f: &Term, th: ThmId) -> Result<ThmId, NoMemory>
    requires whole { IsFormula log.old.env.sig (some ty.now f.now) }
    requires th { IsThm log.old th.0 }
    requires refuted { (thm log.old th.0).concl ≡ falsum }
    ensures kept { Extends log.old log.new }
    ensures facts { SameFacts log.old log.new }
    ensures gives { IfOk result (λ r. Gives log.new r.0 (seq (set.union (only (some ty.now f.now)) (set.remove (thm log.old th.0).hyps (applied_to f.now (chosen ty.now f.now)))) falsum)) }
{
    let part = picked(log, ty, f)?;
    cut(log, part, th)
}

/// From `{} : c = d` and `G : false` to `{?x. f@x} + (G - f@d) : false` for the value `c` that is chosen for `f`.
#[tactic(none)]
pub fn some_named(
    log: &mut Log,
    ty: &Ty,
    f: &Term,
    name: ThmId,
    th: ThmId,
) -> Result<ThmId, NoMemory>
    requires whole { IsFormula log.old.env.sig (some ty.now f.now) }
    requires name { IsThm log.old name.0 }
    requires names { thm log.old name.0 ≡ seq set.empty (equal ty.now (chosen ty.now f.now) (right_of (thm log.old name.0).concl)) }
    requires th { IsThm log.old th.0 }
    requires refuted { (thm log.old th.0).concl ≡ falsum }
    ensures kept { Extends log.old log.new }
    ensures facts { SameFacts log.old log.new }
    ensures gives { IfOk result (λ r. Gives log.new r.0 (seq (set.union (only (some ty.now f.now)) (set.remove (thm log.old th.0).hyps (applied_to f.now (right_of (thm log.old name.0).concl)))) falsum)) }
{
    let part = picked(log, ty, f)?;
    let there = log.subst(f, name, part)?;
    cut(log, there, th)
}
