ghost use Rattle.std.specs.Prelude.{◌≡◌, IfOk};
ghost use Rattle.std.specs.FinSet as set;
ghost use Rattle.kernel_rules.specs.Rules.{seq};
ghost use Rattle.hol_kernel.specs.Logs.{IsThm, thm};
ghost use Rattle.hol_kernel.specs.Growth.{Extends, Gives, SameFacts};

use hol_kernel::{Log, ThmId};
use hol_terms::copy;
use text_kit::NoMemory;

/// From `G : a` and `D : c` to `G + (D - a) : c`.
#[tactic(none)]
pub fn cut(log: &mut Log, a: ThmId, c: ThmId) -> Result<ThmId, NoMemory>
    requires a { IsThm log.old a.0 }
    requires c { IsThm log.old c.0 }
    ensures kept { Extends log.old log.new }
    ensures facts { SameFacts log.old log.new }
    ensures gives { IfOk result (λ th. Gives log.new th.0 (seq (set.union (thm log.old a.0).hyps (set.remove (thm log.old c.0).hyps (thm log.old a.0).concl)) (thm log.old c.0).concl)) }
{
    let removed = copy(log.conclusion(a))?;
    let implied = log.imp_intro_own(removed, c)?;
    log.imp_elim(implied, a)
}
