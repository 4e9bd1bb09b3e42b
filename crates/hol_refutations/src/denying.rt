ghost use Rattle.std.specs.Prelude.{◌≡◌, IfOk};
ghost use Rattle.std.specs.FinSet as set;
ghost use Rattle.hol_terms.specs.Formulas.{IsFormula};
ghost use Rattle.hyp_sets.specs.Sets.{only};
ghost use Rattle.kernel_rules.specs.Connectives.{falsum, neg, imp};
ghost use Rattle.kernel_rules.specs.Rules.{seq};
ghost use Rattle.hol_kernel.specs.Logs.{IsThm, thm};
ghost use Rattle.hol_kernel.specs.Growth.{Extends, Gives, SameFacts};

use hol_kernel::{Log, ThmId};
use hol_terms::Term;
use kernel_rules::negation;
use text_kit::NoMemory;

/// From `G : c` to `{~c} + G : false`.
#[tactic(none)]
pub(crate) fn denied(log: &mut Log, th: ThmId) -> Result<ThmId, NoMemory>
    requires { IsThm log.old th.0 }
    ensures kept { Extends log.old log.new }
    ensures facts { SameFacts log.old log.new }
    ensures gives { IfOk result (λ r. Gives log.new r.0 (seq (set.union (only (neg (thm log.old th.0).concl)) (thm log.old th.0).hyps) falsum)) }
{
    let other = negation(log.allocator(), log.conclusion(th))?;
    let against = log.assume_own(other)?;
    log.not_elim(against, th)
}

/// From `G : false` to `(G - ~b) - a : a ==> b`.
#[tactic(none)]
pub(crate) fn implied(log: &mut Log, a: &Term, b: &Term, th: ThmId) -> Result<ThmId, NoMemory>
    requires a { IsFormula log.old.env.sig a.now }
    requires b { IsFormula log.old.env.sig b.now }
    requires th { IsThm log.old th.0 }
    requires refuted { (thm log.old th.0).concl ≡ falsum }
    ensures kept { Extends log.old log.new }
    ensures facts { SameFacts log.old log.new }
    ensures gives { IfOk result (λ r. Gives log.new r.0 (seq (set.remove (set.remove (thm log.old th.0).hyps (neg b.now)) a.now) (imp a.now b.now))) }
{
    let then = log.classical(b, th)?;
    log.imp_intro(a, then)
}
