ghost use Rattle.std.specs.Prelude.{[], Some, false};

use race_outside::{Chunk, Launcher, MemoryLauncher, Pipe, StartFault};
use std::sync::atomic::{AtomicBool, Ordering};
use std::thread;
use text_kit::{Bytes, Rows};

/// How often a pipe looks whether a child was killed.
const LOOKS: u64 = 100_000_000;

/// How often it looks before it lets other threads run.
const LOOKS_AT_ONCE: u64 = 1024;

/// The pipe from a child that prints nothing and runs until one is killed.
#[derive(Drop)]
pub(crate) struct LastingPipe<'a> {
    number: u64,
    killed: &'a AtomicBool,
    faults: u64,
}

/// Whether a kill was seen, or a read fails.
fn is_killed(killed: &AtomicBool) -> bool {
    for look in 0..LOOKS {
        if killed.load(Ordering::SeqCst) {
            return true;
        }
        if look % LOOKS_AT_ONCE == 0 {
            thread::yield_now();
        }
    }
    false
}

impl Pipe for LastingPipe<'_> {
    ghost use Rattle.std.proofs.Common.{rules};

    ghost number = { λ p. p.number };

    ghost faults = { λ p. p.faults };

    ghost told = { λ p. record { whole = Some []; sound = false } };

    ghost left = { λ p. Some [] };

    ghost sound_tells = { Prim.search rules };

    ghost sound_unfailed = { Prim.search rules };

    fn id(&self) -> u64 {
        self.number
    }

    fn fault_count(&self) -> u64 {
        self.faults
    }

    fn read(&mut self, _into: &mut [u8]) -> Chunk {
        if is_killed(self.killed) {
            return Chunk::End;
        }
        self.faults = self.faults.saturating_add(1);
        Chunk::Failed
    }
}

/// Starts children that print nothing and run until one of them is killed. For a start that its notes refuse there is
/// no memory.
#[derive(Drop)]
pub(crate) struct LastingLauncher<'a> {
    pub(crate) notes: MemoryLauncher,
    pub(crate) killed: &'a AtomicBool,
}

impl<'a> Launcher for LastingLauncher<'a> {
    type Pipe = LastingPipe<'a>;

    ghost standing = { λ l. l.notes.standing };

    ghost children = { λ l id. record { whole = Some []; sound = false } };

    fn start(
        &mut self,
        args: &Rows<Bytes>,
        text: &Bytes,
    ) -> Result<(u64, LastingPipe<'a>), StartFault> {
        match self.notes.start(args, text) {
            Ok((id, _)) => Ok((
                id,
                LastingPipe {
                    number: id,
                    killed: self.killed,
                    faults: 0,
                },
            )),
            Err(_) => Err(StartFault::NoMemory),
        }
    }

    fn kill(&mut self, id: u64) {
        self.notes.kill(id);
        self.killed.store(true, Ordering::SeqCst);
    }

    fn reap(&mut self, id: u64) {
        self.notes.reap(id);
    }

    fn now(&mut self) -> u64 {
        self.notes.now()
    }
}
