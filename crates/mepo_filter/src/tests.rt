ghost use Rattle.std.specs.Prelude.{All, IfOk};
ghost use Rattle.mepo_filter.specs.inner.Places.{IsWithin};

use crate::constant_set::ConstantSet;
use crate::counts::Counts;
use crate::placing::Place;
use crate::scorer::{Scorer, SideBySide};
use crate::weights::Weights;
use crate::{Chosen, select, select_par, slice_of};
use std::alloc::Global;
use std::test::Fail;
use std::thread::Threads;
use text_kit::{NoMemory, Rows};
use theory_reader::read;

const MOST: usize = 1_000_000;

const TWO_FACTS: &[u8] =
    b"const p : bool; const q : bool; fact f1 : p; fact f2 : ~p | q; goal g : q;";

const FOUR_ALIKE: &[u8] =
    b"const p : bool; const q : bool; const r : bool; const s : bool; const t : bool; \
    fact a : p & q; fact b : p & r; fact c : p & s; fact d : p & t; goal g : p;";

/// Whether both calls choose just these facts for the theory's first goal, by the slice with this number.
fn choose(
    rt: &(impl Threads + Sync),
    alloc: Global,
    text: &[u8],
    visible: &[u32],
    number: u32,
    expected: &[Chosen],
) -> Result<bool, Fail> {
    if text.len() >= MOST || visible.len() >= MOST || number >= 64 {
        return Ok(false);
    }
    let theory = read(alloc, text)?;
    if theory.goals.len() == 0 {
        return Ok(false);
    }
    let visible = Rows::from_vec(Vec::from_slice(alloc, visible)?);
    let slice = slice_of(number);
    let one = select(alloc, &theory, &visible, 0, &slice)?;
    let other = select_par(rt, alloc, &theory, &visible, 0, &slice)?;
    Ok(one.as_slice() == expected && other.as_slice() == expected)
}

fn row(fact: u32, round: u32, top: u64, bottom: u64) -> Chosen {
    Chosen {
        fact,
        round,
        top,
        bottom,
    }
}

#[test]
fn chooses_in_rounds(rt: HostRuntime) -> Result<(), Fail> {
    let all = [row(1, 1, 32, 48), row(0, 1, 0, 16)];
    assert!(rt; choose(&rt, rt.alloc(), TWO_FACTS, &[0, 1], 7, &all)?);
    let rounds = [row(1, 1, 32, 48), row(0, 2, 21, 21)];
    assert!(rt; choose(&rt, rt.alloc(), TWO_FACTS, &[0, 1], 0, &rounds)?);
    let ties = [
        row(0, 1, 16, 32),
        row(1, 1, 16, 32),
        row(2, 1, 16, 32),
        row(3, 1, 16, 32),
    ];
    assert!(rt; choose(&rt, rt.alloc(), FOUR_ALIKE, &[0, 1, 2, 3], 0, &ties)?);
    assert!(rt; choose(&rt, rt.alloc(), FOUR_ALIKE, &[0, 1, 2, 3], 5, &[])?);
    Ok(())
}

/// So many facts that all have the same constants.
fn alike(alloc: Global, facts: u32, constants: u32) -> Result<Rows<Place>, NoMemory>
    ensures { IfOk result (All (IsWithin constants)) }
{
    let mut places = Rows::begin(alloc);
    for fact in 0..facts {
        places.push(Place {
            fact,
            start: 0,
            end: constants,
        })?;
    }
    Ok(places)
}

#[test]
fn scores_in_threads(rt: HostRuntime) -> Result<(), Fail> {
    let flat = vec![in rt.alloc(); 7u32; 512]?;
    let places = alike(rt.alloc(), 2_100, 512)?;
    let weights = Weights::of(rt.alloc(), &Counts::begin(rt.alloc()))?;
    let relevant = ConstantSet::begin(rt.alloc());
    let scorer = SideBySide {
        rt: &rt,
        alloc: rt.alloc(),
    };
    let all = scorer.scores(&flat, &weights, &relevant, places.as_slice())?;
    assert_eq!(rt; all.len(), 2_100);
    for scored in &all {
        assert!(rt; scored.score.top == 0 && scored.score.bottom == 16 * 512);
    }
    Ok(())
}
