ghost use Rattle.std.specs.Prelude.{◌≡◌, ◌<◌, length, IfOk};
ghost use Rattle.theory_reader.specs.Seen.{IsEnvOf};
ghost use Rattle.sledge_engine.specs.Filter.{slice_choice};

use crate::visible::visible_facts;
use hol_terms::Env;
use mepo_filter::{Chosen, select, slice_of};
use std::alloc::Global;
use text_kit::{NoMemory, Rows};
use theory_reader::Theory;

/// What the slice with this number chooses of the facts that a goal may be proved from.
pub(crate) fn chosen_by_slice(
    alloc: Global,
    theory: &Theory,
    goal: u32,
    env: &Env,
    slice: u32,
) -> Result<Rows<Chosen>, NoMemory>
    requires goal { goal < length theory.now.goals }
    requires env { IsEnvOf theory.now goal env.now }
    requires slice { slice < 64 }
    ensures { IfOk result (λ chosen. chosen ≡ slice_choice theory.now goal slice) }
{
    let visible = visible_facts(alloc, env)?;
    select(alloc, theory, &visible, goal, &slice_of(slice))
}
