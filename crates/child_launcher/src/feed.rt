ghost use Rattle.std.specs.Prelude.{◌≡◌, ◌≤◌, length, IfOk};

use os::set_nonblocking;
use race_outside::Failed;
use std::alloc::Global;
use std::io::{ErrorKind, Write};
use std::os::fd::AsRawFd;
use std::process::ChildStdin;
use text_kit::{Bytes, NoMemory};

/// What a child is still to read: its input, and the rest of its text.
#[derive(Drop)]
pub(crate) struct Feed {
    pub(crate) input: ChildStdin,
    rest: Bytes,
    at: usize,
    ghost within: { at ≤ length rest },
}

/// Why a child couldn't be fed.
#[derive(Clone, Copy)]
pub(crate) enum FeedFault {
    Failed,
    NoMemory,
}

// Writes as much of the text as the input takes without waiting.
fn pour(input: &mut ChildStdin, text: &[u8]) -> Result<usize, Failed>
    ensures { IfOk result (λ count. count ≤ length text.now) }
{
    let mut put = 0;
    'writes: for _ in 0..u64::MAX {
        if put == text.len() {
            return Ok(put);
        }
        match input.write(&text[put..]) {
            Ok(0) => return Err(Failed),
            Ok(count) => put += count,
            Err(cause) => match cause.kind() {
                ErrorKind::WouldBlock => return Ok(put),
                ErrorKind::Interrupted => {}
                _ => return Err(Failed),
            },
        }
    }
    Ok(put)
}

/// Gives a child as much of its text as it takes at once. `None`: it took all, and its input is closed.
pub(crate) fn give(
    alloc: Global,
    input: ChildStdin,
    text: &[u8],
) -> Result<Option<Feed>, FeedFault> {
    let mut input = input;
    if set_nonblocking(input.as_raw_fd(), true) != 0 {
        return Err(FeedFault::Failed);
    }
    let Ok(put) = pour(&mut input, text) else {
        return Err(FeedFault::Failed);
    };
    if put == text.len() {
        return Ok(None);
    }
    match Bytes::from_slice(alloc, &text[put..]) {
        Ok(rest) => Ok(Some(Feed { input, rest, at: 0 })),
        Err(NoMemory) => Err(FeedFault::NoMemory),
    }
}

impl Feed {
    /// Gives the child as much of the rest as it takes without waiting; whether it has all.
    pub(crate) fn go_on(&mut self) -> Result<bool, Failed> {
        let put = pour(&mut self.input, &self.rest.as_slice()[self.at..])?;
        self.at += put;
        Ok(self.at == self.rest.len())
    }
}
