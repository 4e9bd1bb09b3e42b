ghost use Rattle.std.specs.Prelude.{◌≡◌, IfOk};

use std::alloc::Global;
use text_kit::{Bytes, NoMemory};

/// What the child answers: its exit status, and its text.
#[derive(Debug, Drop)]
pub struct ChildEnd {
    /// the exit status
    pub status: u8,
    /// the text, each line with its end
    pub text: Bytes,
}

/// A status with a text.
pub(crate) fn end_with(alloc: Global, status: u8, text: &[u8]) -> Result<ChildEnd, NoMemory>
    ensures { IfOk result (λ e. (e.status ≡ status) × (e.text ≡ text.now)) }
{
    Ok(ChildEnd {
        status,
        text: Bytes::from_slice(alloc, text)?,
    })
}
