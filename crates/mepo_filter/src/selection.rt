ghost use Rattle.std.specs.Prelude.{◌≡◌, ◌<◌, ◌^◌, length, IfOk};
ghost use Rattle.mepo_filter.specs.Slices.{IsSlice};
ghost use Rattle.mepo_filter.specs.Mepo.{mepo, goal_constants};
ghost use Rattle.mepo_filter.specs.inner.Tables.{is_in};

use crate::constant_set::ConstantSet;
use crate::gathering::{Gathered, gather};
use crate::naming::put_names;
use crate::round::{State, rounds};
use crate::scorer::{OneByOne, Scorer, SideBySide};
use crate::weights::Weights;
use crate::{Chosen, Slice};
use std::alloc::Global;
use std::thread::Threads;
use text_kit::{NoMemory, Rows};
use theory_reader::Theory;

/// Chooses the slice's facts of the visible ones for a goal, most relevant first.
///
/// `visible` has numbers of facts among those that the goal is proved from. The method is the filter of Meng and
/// Paulson, "Lightweight relevance filtering for machine-generated resolution problems" (2009), on whole numbers.
pub fn select(
    alloc: Global,
    theory: &Theory,
    visible: &Rows<u32>,
    goal: u32,
    slice: &Slice,
) -> Result<Rows<Chosen>, NoMemory>
    requires goal { goal < length theory.now.goals }
    requires few { length visible.now < 2 ^ 32 }
    requires slice { IsSlice slice.now }
    ensures { IfOk result (λ chosen. chosen ≡ mepo theory.now visible.now goal slice.now) }
{
    select_with(&OneByOne { alloc }, alloc, theory, visible, goal, slice)
}

/// What `select` gives. The scores of a round are computed side by side.
pub fn select_par(
    rt: &(impl Threads + Sync),
    alloc: Global,
    theory: &Theory,
    visible: &Rows<u32>,
    goal: u32,
    slice: &Slice,
) -> Result<Rows<Chosen>, NoMemory>
    requires goal { goal < length theory.now.goals }
    requires few { length visible.now < 2 ^ 32 }
    requires slice { IsSlice slice.now }
    ensures { IfOk result (λ chosen. chosen ≡ mepo theory.now visible.now goal slice.now) }
{
    let scorer = SideBySide { rt: &*rt, alloc };
    select_with(&scorer, alloc, theory, visible, goal, slice)
}

/// The constants of the goal's formula.
fn of_goal(alloc: Global, theory: &Theory, goal: u32) -> Result<ConstantSet, NoMemory>
    requires { goal < length theory.now.goals }
    ensures { IfOk result (λ set. is_in set ≡ goal_constants theory.now goal) }
{
    let mut names = Vec::new(alloc);
    put_names(&theory.goals.at(goal as usize).formula, &mut names)?;
    let mut set = ConstantSet::begin(alloc);
    set.insert_all(&names)?;
    Ok(set)
}

fn select_with<S: Scorer>(
    scorer: &S,
    alloc: Global,
    theory: &Theory,
    visible: &Rows<u32>,
    goal: u32,
    slice: &Slice,
) -> Result<Rows<Chosen>, NoMemory>
    requires scorer { S.is_ready scorer.now }
    requires goal { goal < length theory.now.goals }
    requires few { length visible.now < 2 ^ 32 }
    requires slice { IsSlice slice.now }
    ensures { IfOk result (λ chosen. chosen ≡ mepo theory.now visible.now goal slice.now) }
{
    let Gathered {
        flat,
        places,
        counts,
    } = gather(alloc, theory, visible.as_slice(), goal)?;
    let weights = Weights::of(alloc, &counts)?;
    let start = State {
        relevant: of_goal(alloc, theory, goal)?,
        mark: slice.mark,
        left: places.into_vec(),
        chosen: Vec::new(alloc),
    };
    let count = visible.len() as u32;
    let chosen = rounds(
        scorer,
        alloc,
        slice,
        flat.as_slice(),
        &weights,
        count,
        start,
    )?;
    Ok(chosen)
}
