ghost use Rattle.std.specs.Prelude.{◌≡◌, ◌<◌, ◌≤◌, ◌^◌, ℕ, [], length, IfOk};
ghost use Rattle.sledge_engine.specs.inner.Fetches.{IsFetch, IsOpened, IsShort, IsTheoryOf, outside};
ghost use Rattle.sledge_engine.specs.Files.{FileRefusal, Outside, most_theory_bytes};

use crate::fetching::{Fetch, fetch_file};
use crate::texts::{put_fault, put_refusal};
use race_outside::Shelf;
use std::alloc::Global;
use text_kit::{Bytes, NoMemory};
use theory_reader::{Theory, read};

/// The greatest number of bytes of a theory file.
const MOST_BYTES: u64 = 16_777_216;

/// A theory, or the status of a refusal whose text is put.
#[derive(Drop)]
pub(crate) enum Opened {
    Read(Theory),
    Refused(u8),
}

/// Puts that a file isn't there.
pub(crate) fn put_missing(text: &mut Bytes, name: &str) -> Result<u8, NoMemory>
    requires { text.old ≡ [] }
    ensures { IfOk result (λ status. (o : Outside) (limit : ℕ) → IsFetch o name.now limit Fetch.Failed → FileRefusal o name.now limit status text.new) }
{
    put_refusal(text, 3, b"fault: file ", name.as_bytes(), b"\n")
}

/// Puts that a file is too long.
pub(crate) fn put_long(text: &mut Bytes, name: &str) -> Result<u8, NoMemory>
    requires { text.old ≡ [] }
    ensures { IfOk result (λ status. (o : Outside) (limit : ℕ) → IsFetch o name.now limit Fetch.TooLong → FileRefusal o name.now limit status text.new) }
{
    put_refusal(text, 3, b"fault: file ", name.as_bytes(), b" too long\n")
}

/// The theory of bytes.
pub(crate) fn read_theory(alloc: Global, bytes: &[u8], text: &mut Bytes) -> Result<Opened, NoMemory>
    requires few { length bytes.now < 2 ^ 32 }
    requires text { text.old ≡ [] }
    ensures { IfOk result (IsTheoryOf bytes.now text.new) }
{
    match read(alloc, bytes) {
        Ok(theory) => Ok(Opened::Read(theory)),
        Err(fault) => Ok(Opened::Refused(put_fault(text, fault)?)),
    }
}

/// Reads the theory that was fetched.
fn open_fetched(
    alloc: Global,
    name: &str,
    fetched: Fetch,
    text: &mut Bytes,
) -> Result<Opened, NoMemory>
    requires short { IsShort most_theory_bytes fetched }
    requires text { text.old ≡ [] }
    ensures { IfOk result (λ opened. (o : Outside) → IsFetch o name.now most_theory_bytes fetched → IsOpened o name.now text.new opened) }
{
    match fetched {
        Fetch::Whole(bytes) => read_theory(alloc, bytes.as_slice(), text),
        Fetch::TooLong => Ok(Opened::Refused(put_long(text, name)?)),
        Fetch::Failed => Ok(Opened::Refused(put_missing(text, name)?)),
    }
}

/// Fetches a theory file and reads it.
pub(crate) fn open_theory<H: Shelf>(
    alloc: Global,
    name: &str,
    shelf: &mut H,
    text: &mut Bytes,
) -> Result<Opened, NoMemory>
    requires { text.old ≡ [] }
    ensures opened { IfOk result (IsOpened (outside (H.held shelf.old) (H.sure shelf.old) (H.faults shelf.old) (H.faults shelf.new)) name.now text.new) }
    ensures held { H.held shelf.new ≡ H.held shelf.old }
    ensures sure { H.sure shelf.new ≡ H.sure shelf.old }
    ensures later { H.faults shelf.old ≤ H.faults shelf.new }
{
    let fetched = fetch_file(alloc, name, MOST_BYTES, shelf)?;
    open_fetched(alloc, name, fetched, text)
}
