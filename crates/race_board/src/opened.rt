ghost use Rattle.std.specs.Prelude.{◌≡◌, ◌≤◌, ◌+◌, ◌*◌, [], None, map, replicate, IfOk, IfSome, vec_capacity};
ghost use Rattle.race_board.specs.Boards.{unended, Reads};

use race_core::{Event, Kept, Order, Outcome, Race, SlotEnd};
use race_outside::Launcher;
use std::alloc::Global;
use text_kit::{Bytes, NoMemory, Rows};

/// The room for a race of so many slots: three events of each, and that the limit of time passes.
pub(crate) fn history_of(alloc: Global, slots: u32) -> Result<Vec<Event>, NoMemory>
    requires { slots ≤ 64 }
    ensures empty { IfOk result (λ history. history.items ≡ []) }
    ensures room { IfOk result (λ history. 3 * slots + 1 ≤ vec_capacity history) }
{
    let mut history = Vec::new(alloc);
    match history.reserve(3 * slots as usize + 1) {
        Ok(()) => Ok(history),
        Err(_) => Err(NoMemory),
    }
}

/// No ids.
pub(crate) fn ids_of(alloc: Global, slots: u32) -> Result<Rows<Option<u64>>, NoMemory>
    ensures { IfOk result (λ ids. ids ≡ replicate slots None) }
{
    match vec![in alloc; None; slots as usize] {
        Ok(ids) => Ok(Rows::from_vec(ids)),
        Err(_) => Err(NoMemory),
    }
}

/// A slot with this order that hasn't ended. It takes no memory.
pub(crate) fn unended<P>(alloc: Global, order: Order) -> SlotEnd<P>
    ensures { result ≡ unended order }
{
    SlotEnd {
        order,
        kept: Kept {
            bytes: Bytes::begin(alloc),
            pipe_faults: 0,
            short: false,
            stray: None,
        },
        outcome: Outcome::NoMemory,
    }
}

/// The slots of these orders, none of which has ended.
pub(crate) fn ends_of<P: Drop>(
    alloc: Global,
    orders: Rows<Order>,
) -> Result<Vec<SlotEnd<P>>, NoMemory>
    ensures { IfOk result (λ ends. ends.items ≡ map unended orders) }
{
    let mut ends = Vec::new(alloc);
    let mut orders = orders.into_vec();
    if ends.reserve(orders.len()).is_err() {
        return Err(NoMemory);
    }
    while !orders.is_empty() {
        let order = orders.remove(0);
        ends.push_reserved(unended(alloc, order));
    }
    Ok(ends)
}

/// The moment from which on the limit of time has passed: so long after a reading of the clock.
pub(crate) fn until_of<L: Launcher>(launcher: &mut L, limit: Option<u64>) -> Option<u64>
    requires { IfSome limit (λ milliseconds. milliseconds ≤ 600000) }
    ensures clock { Reads limit result (L.standing launcher.old) (L.standing launcher.new) }
    ensures same_children { L.children launcher.new ≡ L.children launcher.old }
    ensures same { limit ≡ None → launcher.new ≡ launcher.old }
{
    match limit {
        Some(limit) => Some(launcher.now() + limit),
        None => None,
    }
}
