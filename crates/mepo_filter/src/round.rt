ghost use Rattle.std.specs.Prelude.{◌≡◌, ◌+◌, ◌<◌, ◌≤◌, ◌^◌, [], not, All, length, filter, map, take, MatchBool, IfOk, OnOk};
ghost use Rattle.mepo_filter.specs.Scores.{reaches};
ghost use Rattle.mepo_filter.specs.Rounds.{joined, risen, rounds};
ghost use Rattle.mepo_filter.specs.inner.Tables.{is_in, weight_in};
ghost use Rattle.mepo_filter.specs.inner.Places.{IsWithin};
ghost use Rattle.mepo_filter.specs.inner.Steps.{IsModest, IsReady, Goes, Stops, round_at, chosen_of, candidate_of};

use crate::constant_set::ConstantSet;
use crate::placing::{Place, Scored};
use crate::rank::rank;
use crate::score::WHOLE;
use crate::scorer::Scorer;
use crate::weights::Weights;
use crate::{Chosen, Slice};
use std::alloc::Global;
use text_kit::{NoMemory, Rows};

/// What a round begins with, and what the rounds before it chose.
#[derive(Drop)]
pub(crate) struct State {
    pub relevant: ConstantSet,
    pub mark: u64,
    pub left: Vec<Place>,
    pub chosen: Vec<Chosen>,
}

fn taken(alloc: Global, scored: &[Scored], mark: u64) -> Result<Vec<Scored>, NoMemory>
    ensures { IfOk result (λ v. v.items ≡ filter (λ s. reaches mark s.score) scored.now) }
{
    let taken = scored.iter().copied().filter(|s| s.score.reaches(mark));
    match taken.collect(alloc) {
        Ok(taken) => Ok(taken),
        Err(_) => Err(NoMemory),
    }
}

fn passed_over(alloc: Global, scored: &[Scored], mark: u64) -> Result<Vec<Place>, NoMemory>
    ensures { IfOk result (λ v. v.items ≡ map (λ s. s.place) (filter (λ s. not (reaches mark s.score)) scored.now)) }
{
    let left = scored.iter().filter(|s| !s.score.reaches(mark));
    match left.map(|s| s.place).collect(alloc) {
        Ok(left) => Ok(left),
        Err(_) => Err(NoMemory),
    }
}

fn chosen(alloc: Global, taken: &[Scored], number: u32) -> Result<Vec<Chosen>, NoMemory>
    ensures { IfOk result (λ v. v.items ≡ map (chosen_of number) taken.now) }
{
    let chosen = taken.iter().map(|s| Chosen {
        fact: s.place.fact,
        round: number,
        top: s.score.top,
        bottom: s.score.bottom,
    });
    match chosen.collect(alloc) {
        Ok(chosen) => Ok(chosen),
        Err(_) => Err(NoMemory),
    }
}

/// The constants of these facts join the relevant ones.
fn join(relevant: &mut ConstantSet, flat: &[u32], taken: &[Scored]) -> Result<(), NoMemory>
    requires { All (λ s. IsWithin (length flat.now) s.place) taken.now }
    ensures { OnOk result (is_in relevant.new ≡ joined (is_in relevant.old) (map (candidate_of flat.now) taken.now)) }
{
    for scored in taken {
        let Place { start, end, .. } = scored.place;
        relevant.insert_all(&flat[start as usize..end as usize])?;
    }
    Ok(())
}

/// The mark, and the slice's part of what it lacks of one.
fn raised(slice: &Slice, mark: u64) -> u64
    requires modest { IsModest slice.now }
    requires mark { mark ≤ 2 ^ 20 }
    ensures value { result ≡ risen slice.now mark }
    ensures within { result ≤ 2 ^ 20 }
{
    mark + (WHOLE - mark) * slice.rise / slice.of
}

/// Makes one round, with the first being 1. Where it takes none it answers `false`, and the rounds are over.
pub(crate) fn advance<S: Scorer>(
    scorer: &S,
    alloc: Global,
    slice: &Slice,
    flat: &[u32],
    weights: &Weights,
    number: u32,
    state: &mut State,
) -> Result<bool, NoMemory>
    requires scorer { S.is_ready scorer.now }
    requires modest { IsModest slice.now }
    requires ready { IsReady flat.now state.old }
    ensures { IfOk result (λ goes. MatchBool goes
        (Goes (weight_in weights.now) slice.now flat.now number state.old state.new)
        (Stops (weight_in weights.now) flat.now number state.old state.new)) }
{
    let scored = scorer.scores(flat, weights, &state.relevant, &state.left)?;
    let taken = taken(alloc, &scored, state.mark)?;
    if taken.as_slice().is_empty() {
        return Ok(false);
    }
    let mut chosen = chosen(alloc, &taken, number)?;
    rank(&mut chosen)?;
    join(&mut state.relevant, flat, &taken)?;
    state.left = passed_over(alloc, &scored, state.mark)?;
    state.mark = raised(slice, state.mark);
    match state.chosen.extend_from_slice(&chosen) {
        Ok(()) => Ok(true),
        Err(_) => Err(NoMemory),
    }
}

/// The first facts of those chosen, as many as the slice has room for.
fn cut(state: State, facts: u32) -> Rows<Chosen>
    ensures { result ≡ take facts state.chosen.items }
{
    let mut chosen = state.chosen;
    chosen.truncate(facts as usize);
    Rows::from_vec(chosen)
}

/// Makes at most so many rounds, until one takes none or the slice is full.
pub(crate) fn rounds<S: Scorer>(
    scorer: &S,
    alloc: Global,
    slice: &Slice,
    flat: &[u32],
    weights: &Weights,
    count: u32,
    start: State,
) -> Result<Rows<Chosen>, NoMemory>
    requires scorer { S.is_ready scorer.now }
    requires modest { IsModest slice.now }
    requires ready { IsReady flat.now start }
    requires none { start.chosen.items ≡ [] }
    ensures { IfOk result (λ chosen. chosen ≡
        take slice.now.facts (rounds (weight_in weights.now) slice.now count (round_at flat.now 1 start))) }
{
    let mut state = start;
    for done in 0..count {
        if state.chosen.as_slice().len() >= slice.facts as usize {
            return Ok(cut(state, slice.facts));
        }
        let goes = advance(scorer, alloc, slice, flat, weights, done + 1, &mut state)?;
        if !goes {
            return Ok(cut(state, slice.facts));
        }
    }
    Ok(cut(state, slice.facts))
}
