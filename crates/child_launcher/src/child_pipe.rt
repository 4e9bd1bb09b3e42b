ghost use Rattle.std.specs.Prelude.{◌≡◌, ◌<◌, None, false, length};
ghost use Rattle.race_outside.specs.Pipes.{Reads};

use crate::feed::Feed;
use crate::ready::wait_for_either;
use race_outside::{Chunk, Failed, Pipe};
use std::io::{ErrorKind, Read};
use std::process::ChildStdout;

/// The output of a real child. It tells no content.
///
/// What the child hasn't read of its text is given to it while its output is read, as it takes it. So a
/// child may write before it has read all, and no start waits for a child that doesn't read. A child that
/// closes its input or its output before it has its whole text is a failure.
#[derive(Drop)]
pub struct ChildPipe {
    number: u64,
    feed: Option<Feed>,
    output: ChildStdout,
    faults: u64,
}

impl ChildPipe {
    /// The pipe from the child with this id, of which nothing was read.
    pub(crate) fn begin(number: u64, feed: Option<Feed>, output: ChildStdout) -> ChildPipe
        ensures number { result.number ≡ number }
        ensures faults { result.faults ≡ 0 }
    {
        ChildPipe {
            number,
            feed,
            output,
            faults: 0,
        }
    }
}

// One read. An interrupted one is made again.
fn read_some(output: &mut ChildStdout, into: &mut [u8]) -> Chunk
    requires { 0 < length into.old }
    ensures { Reads None None into.new result }
{
    for _ in 0..u64::MAX {
        match output.read(into) {
            Ok(0) => return Chunk::End,
            Ok(count) => return Chunk::Got(count),
            Err(cause) => {
                if cause.kind() != ErrorKind::Interrupted {
                    return Chunk::Failed;
                }
            }
        }
    }
    Chunk::Failed
}

// Feeds the child until it has its whole text or has written something; whether it has its whole text.
fn feed_until_written(feed: &mut Feed, output: &ChildStdout) -> Result<bool, Failed> {
    for _ in 0..u64::MAX {
        let ready = wait_for_either(&feed.input, output)?;
        if ready.input && feed.go_on()? {
            return Ok(true);
        }
        if ready.output {
            return Ok(false);
        }
    }
    Err(Failed)
}

// Feeds the child, and closes its input once it has its whole text.
fn feed_some(feed: Option<Feed>, output: &ChildStdout) -> Result<Option<Feed>, Failed> {
    let Some(mut feed) = feed else {
        return Ok(None);
    };
    if feed_until_written(&mut feed, output)? {
        return Ok(None);
    }
    Ok(Some(feed))
}

// Feeds the child until it has written something, and reads that.
fn exchange(feed: &mut Option<Feed>, output: &mut ChildStdout, into: &mut [u8]) -> Chunk
    requires { 0 < length into.old }
    ensures { Reads None None into.new result }
{
    match feed_some(feed.take(), output) {
        Ok(rest) => {
            let is_fed = rest.is_none();
            *feed = rest;
            match read_some(output, into) {
                Chunk::Got(count) => Chunk::Got(count),
                Chunk::End if is_fed => Chunk::End,
                _ => Chunk::Failed,
            }
        }
        Err(Failed) => Chunk::Failed,
    }
}

impl Pipe for ChildPipe {
    ghost use Rattle.std.proofs.Common.{rules};

    ghost number = { λ p. p.number };

    ghost faults = { λ p. p.faults };

    ghost told = { λ p. record { whole = None; sound = false } };

    ghost left = { λ p. None };

    ghost sound_tells = { Prim.search rules };

    ghost sound_unfailed = { Prim.search rules };

    fn id(&self) -> u64 {
        self.number
    }

    fn fault_count(&self) -> u64 {
        self.faults
    }

    fn read(&mut self, into: &mut [u8]) -> Chunk {
        let chunk = exchange(&mut self.feed, &mut self.output, into);
        if chunk == Chunk::Failed {
            self.faults = self.faults.saturating_add(1);
        }
        chunk
    }
}
