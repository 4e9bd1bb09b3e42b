ghost use Rattle.std.specs.Prelude.{OnOk};
ghost use Rattle.hyp_sets.specs.Sets.{only};
ghost use Rattle.hol_terms.specs.Formulas.{IsFormula};
ghost use Rattle.hol_kernel.specs.Logs.{IsThm, thm};
ghost use Rattle.hol_kernel.specs.Growth.{Extends, SameFacts};
ghost use Rattle.hol_clausify.specs.inner.Parts.{part_of, whole_of, IsReady, first_of, second_of, whole_of_both};
ghost use Rattle.hol_clausify.specs.inner.Refuting.{IsFalse, AllFalse, EachLands, WithEach, EachWithEach};

use crate::pair::{Pair, refute_from_both};
use crate::part::{Part, refute_from};
use hol_derived::cut;
use hol_kernel::{Log, ThmId};
use hol_terms::Term;
use text_kit::{NoMemory, Rows};

/// Appends a refutation of the whole from each refutation of the part.
pub fn refute_from_each(
    log: &mut Log,
    part: Part,
    thms: &[ThmId],
    out: &mut Rows<ThmId>,
) -> Result<(), NoMemory>
    requires ready { IsReady log.old part }
    requires refuted { AllFalse log.old thms.now }
    ensures kept { Extends log.old log.new }
    ensures facts { SameFacts log.old log.new }
    ensures gives { OnOk result (EachLands log.old log.new (part_of part.entry) thms.now (only (whole_of part.entry)) out.old out.new) }
{
    for th in thms {
        let whole = refute_from(log, part, *th)?;
        out.push(whole)?;
    }
    Ok(())
}

/// Appends what is left of each theorem where the conclusion of this one is cut out.
pub fn cut_from_each(
    log: &mut Log,
    part: ThmId,
    thms: &[ThmId],
    out: &mut Rows<ThmId>,
) -> Result<(), NoMemory>
    requires part { IsThm log.old part.0 }
    requires refuted { AllFalse log.old thms.now }
    ensures kept { Extends log.old log.new }
    ensures facts { SameFacts log.old log.new }
    ensures gives { OnOk result (EachLands log.old log.new (thm log.old part.0).concl thms.now (thm log.old part.0).hyps out.old out.new) }
{
    for th in thms {
        let left = cut(log, part, *th)?;
        out.push(left)?;
    }
    Ok(())
}

/// Appends a refutation of the whole from this one of the first part and each of the second.
fn refute_with_each(
    log: &mut Log,
    pair: Pair,
    a: &Term,
    b: &Term,
    left: ThmId,
    rights: &[ThmId],
    out: &mut Rows<ThmId>,
) -> Result<(), NoMemory>
    requires a { IsFormula log.old.env.sig a.now }
    requires b { IsFormula log.old.env.sig b.now }
    requires whole { IsFormula log.old.env.sig (whole_of_both pair a.now b.now) }
    requires left { IsFalse log.old left.0 }
    requires rights { AllFalse log.old rights.now }
    ensures kept { Extends log.old log.new }
    ensures facts { SameFacts log.old log.new }
    ensures gives { OnOk result (WithEach log.old log.new (first_of pair a.now) left.0 (second_of pair b.now) rights.now (only (whole_of_both pair a.now b.now)) out.old out.new) }
{
    for right in rights {
        let whole = refute_from_both(log, pair, a, b, left, *right)?;
        out.push(whole)?;
    }
    Ok(())
}

/// Appends a refutation of the whole from each of the first part with each of the second.
pub fn refute_from_each_with_each(
    log: &mut Log,
    pair: Pair,
    a: &Term,
    b: &Term,
    lefts: &[ThmId],
    rights: &[ThmId],
    out: &mut Rows<ThmId>,
) -> Result<(), NoMemory>
    requires a { IsFormula log.old.env.sig a.now }
    requires b { IsFormula log.old.env.sig b.now }
    requires whole { IsFormula log.old.env.sig (whole_of_both pair a.now b.now) }
    requires lefts { AllFalse log.old lefts.now }
    requires rights { AllFalse log.old rights.now }
    ensures kept { Extends log.old log.new }
    ensures facts { SameFacts log.old log.new }
    ensures gives { OnOk result (EachWithEach log.old log.new (first_of pair a.now) lefts.now (second_of pair b.now) rights.now (only (whole_of_both pair a.now b.now)) out.old out.new) }
{
    for left in lefts {
        refute_with_each(log, pair, a, b, *left, rights, out)?;
    }
    Ok(())
}
