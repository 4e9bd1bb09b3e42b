ghost use Rattle.std.specs.Prelude.{◌≡◌, IfOk};
ghost use Rattle.std.specs.FinSet as set;
ghost use Rattle.hol_terms.specs.Formulas.{IsFormula};
ghost use Rattle.kernel_rules.specs.Connectives.{falsum, neg, equal};
ghost use Rattle.kernel_rules.specs.Rules.{seq};
ghost use Rattle.hol_kernel.specs.Logs.{IsThm, thm};
ghost use Rattle.hol_kernel.specs.Growth.{Extends, Gives, SameFacts};
ghost use Rattle.hol_kernel.specs.Conditions.{own_ty, IsGiven};

use hol_derived::cut;
use hol_kernel::{Log, ThmId};
use hol_terms::Term;
use text_kit::NoMemory;

/// From `G : false` and `D : false` to `(D - a) + (G - ~a) : false`: the theorem of the resolvent of two clauses, the
/// left one with the literal `a`, the right one with `~a` (`resolvent_lands`).
#[tactic(none)]
pub fn resolve(log: &mut Log, a: &Term, left: ThmId, right: ThmId) -> Result<ThmId, NoMemory>
    requires a { IsFormula log.old.env.sig a.now }
    requires left { IsThm log.old left.0 }
    requires right { IsThm log.old right.0 }
    requires left_false { (thm log.old left.0).concl ≡ falsum }
    requires right_false { (thm log.old right.0).concl ≡ falsum }
    ensures kept { Extends log.old log.new }
    ensures facts { SameFacts log.old log.new }
    ensures gives { IfOk result (λ th. Gives log.new th.0 (seq (set.union (set.remove (thm log.old right.0).hyps a.now) (set.remove (thm log.old left.0).hyps (neg a.now))) falsum)) }
{
    let denied = log.not_intro(a, right)?;
    cut(log, denied, left)
}

/// From `G : c` to `G - (t = t) : c`: the theorem of a clause without a literal `~(t = t)` (`reflexivity_lands`).
#[tactic(none)]
pub fn reflexivity(log: &mut Log, t: &Term, th: ThmId) -> Result<ThmId, NoMemory>
    requires t { IsGiven log.old.env.sig t.now (own_ty log.old.env.sig t.now) }
    requires th { IsThm log.old th.0 }
    ensures kept { Extends log.old log.new }
    ensures facts { SameFacts log.old log.new }
    ensures gives { IfOk result (λ r. Gives log.new r.0 (seq (set.remove (thm log.old th.0).hyps (equal (own_ty log.old.env.sig t.now) t.now t.now)) (thm log.old th.0).concl)) }
{
    let same = log.refl(t)?;
    cut(log, same, th)
}
