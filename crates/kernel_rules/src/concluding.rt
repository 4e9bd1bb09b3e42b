ghost use Rattle.std.specs.Prelude.{◌≡◌, Some, IfOk};
ghost use Rattle.std.specs.FinSet as set;
ghost use Rattle.kernel_rules.specs.Rules.{seq};

use crate::Sequent;
use hol_terms::Term;
use hyp_sets::Hyps;
use std::alloc::Global;
use text_kit::NoMemory;

/// The conclusion under no hypotheses.
pub fn under_none(alloc: Global, concl: Term) -> Result<Option<Sequent>, NoMemory>
    ensures { IfOk result (λ q. q ≡ Some (seq set.empty concl)) }
{
    let hyps = Hyps::none(alloc)?;
    Ok(Some(Sequent { hyps, concl }))
}

/// The conclusion under the hypotheses of a sequent.
pub fn under_those(p: &Sequent, concl: Term) -> Result<Option<Sequent>, NoMemory>
    ensures { IfOk result (λ q. q ≡ Some (seq p.now.hyps concl)) }
{
    let hyps = p.hyps.again()?;
    Ok(Some(Sequent { hyps, concl }))
}

/// The conclusion under the hypotheses of two sequents.
pub fn under_both(
    alloc: Global,
    p: &Sequent,
    q: &Sequent,
    concl: Term,
) -> Result<Option<Sequent>, NoMemory>
    ensures { IfOk result (λ r. r ≡ Some (seq (set.union p.now.hyps q.now.hyps) concl)) }
{
    let hyps = p.hyps.union(alloc, &q.hyps)?;
    Ok(Some(Sequent { hyps, concl }))
}
