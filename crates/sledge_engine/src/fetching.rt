ghost use Rattle.std.specs.Prelude.{◌≡◌, ◌<◌, ◌≤◌, ◌^◌, IfOk};
ghost use Rattle.sledge_engine.specs.inner.Fetches.{IsFetch, IsWithin, outside};

use race_outside::{FetchFault, Shelf};
use std::alloc::Global;
use text_kit::{Bytes, NoMemory};

/// What a fetch of a file gives.
#[derive(Drop)]
pub(crate) enum Fetch {
    Whole(Bytes),
    TooLong,
    Failed,
}

/// The bytes of a file, where they are within the limit.
fn within(bytes: Bytes, limit: u64) -> Fetch
    ensures { IsWithin limit bytes result }
{
    if bytes.len() as u64 > limit {
        Fetch::TooLong
    } else {
        Fetch::Whole(bytes)
    }
}

/// Fetches a file of at most so many bytes.
pub(crate) fn fetch_file<H: Shelf>(
    alloc: Global,
    name: &str,
    limit: u64,
    shelf: &mut H,
) -> Result<Fetch, NoMemory>
    requires { limit < 2 ^ 32 }
    ensures file { IfOk result (IsFetch (outside (H.held shelf.old) (H.sure shelf.old) (H.faults shelf.old) (H.faults shelf.new)) name.now limit) }
    ensures held { H.held shelf.new ≡ H.held shelf.old }
    ensures sure { H.sure shelf.new ≡ H.sure shelf.old }
    ensures later { H.faults shelf.old ≤ H.faults shelf.new }
{
    let mut bytes = Bytes::begin(alloc);
    match shelf.fetch(name, limit, &mut bytes) {
        Ok(()) => Ok(within(bytes, limit)),
        Err(FetchFault::Failed) => Ok(Fetch::Failed),
        Err(FetchFault::NoMemory) => Err(NoMemory),
    }
}
