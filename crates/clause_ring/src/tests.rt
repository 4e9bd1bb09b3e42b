ghost use Rattle.std.specs.Prelude.{◌≡◌, ◌<◌};

use super::*;
use std::alloc::Global;
use std::marker::Brand;
use std::sync::ledger::{Blank, Ledger};
use std::test::Fail;
use text_kit::NoMemory;

/// A ring with entries of these weights, numbered from 0.
fn pushed(alloc: Global, weights: &[u32; 4]) -> Result<Ring, NoMemory> {
    let mut ring = Ring::begin(alloc)?;
    for number in 0..4u32 {
        let weight = weights[number as usize].min(512);
        ring.push(Entry { weight, number })?;
    }
    Ok(ring)
}

/// The numbers that are picked: the lightest, the oldest, and then the lightest three times.
fn picked<L: Ledger>(ring: &mut Ring, blank: Blank) -> [Option<u32>; 5]
    requires name { blank.name ≡ L.name }
    requires parts { blank.parts ≡ L.parts }
    requires some { 0 < L.parts }
{
    let mut steps = Steps::<L>::begin(blank);
    let first = ring.pick_light(&mut steps);
    let second = ring.pick_old(&mut steps);
    let third = ring.pick_light(&mut steps);
    let fourth = ring.pick_light(&mut steps);
    let last = ring.pick_light(&mut steps);
    [first, second, third, fourth, last].map(|pick| pick.map(|entry| entry.number))
}

#[test]
fn picks_in_turn(rt: HostRuntime) -> Result<(), Fail> {
    let mut ring = pushed(rt.alloc(), &[5, 2, 5, 2])?;
    let numbers = picked::<Brand>(&mut ring, Blank::new(1));
    assert_eq!(rt; numbers, [Some(1), Some(0), Some(3), Some(2), None]);
    assert!(rt; ring.is_empty());
    Ok(())
}
