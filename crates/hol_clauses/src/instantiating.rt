ghost use Rattle.std.specs.Prelude.{◌≡◌, IfOk};
ghost use Rattle.hyp_sets.specs.Sets.{image};
ghost use Rattle.kernel_rules.specs.Rules.{seq};
ghost use Rattle.hol_kernel.specs.Logs.{IsThm, thm};
ghost use Rattle.hol_kernel.specs.Growth.{Extends, Gives, SameFacts};
ghost use Rattle.hol_clauses.specs.Bindings.{AllGiven, in_turn};

use crate::Binding;
use hol_kernel::{Log, ThmId};
use text_kit::NoMemory;

/// From `G : c` to the same with each binding's term for its variable, one binding after another. Where they are
/// solved, that is one replacement at once (`in_turn_is_at_once`).
pub fn instantiate(log: &mut Log, bindings: &[Binding], th: ThmId) -> Result<ThmId, NoMemory>
    requires bindings { AllGiven log.old.env.sig bindings.now }
    requires th { IsThm log.old th.0 }
    ensures kept { Extends log.old log.new }
    ensures facts { SameFacts log.old log.new }
    ensures gives { IfOk result (λ r. Gives log.new r.0 (seq (image (in_turn bindings.now) (thm log.old th.0).hyps) (in_turn bindings.now (thm log.old th.0).concl))) }
{
    let mut at = th;
    for b in bindings {
        at = log.inst(b.number, &b.ty, &b.term, at)?;
    }
    Ok(at)
}
