ghost use Rattle.std.specs.Prelude.{◌≡◌, ◌++◌, List, OnOk};
ghost use Rattle.fo_terms.specs.declared.literal.Literal.{Literal};
ghost use Rattle.fo_terms.specs.declared.clause.Clause.{Clause};
ghost use Rattle.fo_infer.specs.inner.Adding.{entry};
ghost use Rattle.fo_infer.specs.inner.Findings.{given_by, all_made};

use crate::{Finding, Rule};
use fo_unify::Bindings;
use text_kit::{NoMemory, Rows};

/// Appends what a rule was found to give, where it gives something.
pub fn add<'a>(
    out: &mut Rows<Finding<'a>>,
    rule: Rule,
    unifier: Option<Bindings<'a>>,
) -> Result<(), NoMemory>
    ensures { (p : Clause) (apart : List Literal) → OnOk result (all_made p apart out.new ≡ all_made p apart out.old ++ entry rule (given_by p apart rule unifier.entry)) }
{
    if let Some(unifier) = unifier {
        out.push(Finding { rule, unifier })?;
    }
    Ok(())
}
