ghost use Rattle.std.specs.Prelude.{◌≡◌, ◌<◌, length, IfOk};
ghost use Rattle.std.specs.FinSet as set;
ghost use Rattle.kernel_rules.specs.Rules.{seq};
ghost use Rattle.hol_terms.specs.Formulas.{IsSentence};
ghost use Rattle.hol_kernel.specs.Growth.{Extends, Gives, SameFacts};
ghost use Rattle.lambda_lift.specs.Tables.{expand as expanded};
ghost use Rattle.lambda_lift.specs.Wholes.{all_of};
ghost use Rattle.hol_clausify.specs.inner.LiftedOver.{IsLifted};

use crate::entries::equations_stand;
use hol_kernel::{Log, ThmId};
use hol_terms::Term;
use lambda_lift::{Lifted, Table};
use std::alloc::Global;
use text_kit::NoMemory;

/// `{} : E1 & (.. & Em)` for the equations of a lifted formula, expanded, of which there are some.
pub fn equations_hold(
    alloc: Global,
    log: &mut Log,
    table: &Table,
    formula: &Term,
    lifted: &Lifted,
) -> Result<ThmId, NoMemory>
    requires formula { IsSentence log.old.env.sig formula.now }
    requires lifted { IsLifted log.old.env.sig formula.now lifted.now table.now }
    requires some { 0 < length lifted.now.equations }
    ensures kept { Extends log.old log.new }
    ensures facts { SameFacts log.old log.new }
    ensures gives { IfOk result (λ r. Gives log.new r.0 (seq set.empty (expanded table.now (all_of lifted.now.equations)))) }
{
    let equations = lifted.equations.as_slice();
    equations_stand(log, alloc, table, &equations[0], &equations[1..])
}
