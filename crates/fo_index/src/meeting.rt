ghost use Rattle.std.specs.Prelude.{◌≡◌, ◌↔◌, ℕ, IsTrue, IfOk, OnOk, Contains};
ghost use Rattle.fo_index.specs.Fronts.{Begins, Meets};
ghost use Rattle.fo_index.specs.Candidates.{IsMet};
ghost use Rattle.fo_index.specs.inner.Collected.{Collects};
ghost use Rattle.fo_index.specs.inner.Shelved.{AreShelved};

use crate::Filed;
use crate::shelves::Shelves;
use std::alloc::Global;
use text_kit::{NoMemory, Rows};

// Whether the second list begins with the first.
fn begins(first: &[u64], second: &[u64]) -> bool
    ensures { IsTrue result ↔ Begins first.now second.now }
{
    second.starts_with(first)
}

// Whether one of the two lists begins the other.
fn meets(first: &[u64], second: &[u64]) -> bool
    ensures { IsTrue result ↔ Meets first.now second.now }
{
    begins(first, second) || begins(second, first)
}

// Appends the id at a place whose front meets this one.
fn consider(
    filed: &Rows<Filed>,
    place: u64,
    front: &[u64],
    ids: &mut Vec<u32>,
) -> Result<(), NoMemory>
    ensures { OnOk result (Collects filed.now front.now (λ k. k ≡ place) ids.old.items ids.new.items) }
{
    let Some(entry) = filed.get(place as usize) else {
        return Ok(());
    };
    if !meets(entry.front.as_slice(), front) {
        return Ok(());
    }
    match ids.push(entry.id) {
        Ok(()) => Ok(()),
        Err(_) => Err(NoMemory),
    }
}

// Appends the ids at these places whose fronts meet this one.
fn collect(
    filed: &Rows<Filed>,
    places: &[u64],
    front: &[u64],
    ids: &mut Vec<u32>,
) -> Result<(), NoMemory>
    ensures { OnOk result (Collects filed.now front.now (Contains places.now) ids.old.items ids.new.items) }
{
    for place in places {
        consider(filed, *place, front, ids)?;
    }
    Ok(())
}

/// The ids whose fronts meet this one, in some order.
pub(crate) fn met(
    alloc: Global,
    filed: &Rows<Filed>,
    whole: &Shelves,
    begun: &Shelves,
    front: &[u64],
) -> Result<Vec<u32>, NoMemory>
    requires { AreShelved whole.now begun.now filed.now }
    ensures all { IfOk result (λ ids. (id : ℕ) → IsMet filed.now front.now id → Contains ids.items id) }
    ensures only { IfOk result (λ ids. (id : ℕ) → Contains ids.items id → IsMet filed.now front.now id) }
{
    let mut ids = Vec::new(alloc);
    for length in 0..front.len() {
        collect(filed, whole.at(&front[..length]), front, &mut ids)?;
    }
    collect(filed, begun.at(front), front, &mut ids)?;
    Ok(ids)
}
