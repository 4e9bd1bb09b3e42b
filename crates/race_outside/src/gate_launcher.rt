ghost use Rattle.std.specs.Prelude.{◌≡◌, [], Some, false, IfOk};

use crate::notes::Notes;
use crate::{Chunk, Launcher, Pipe, StartFault};
use std::alloc::Global;
use std::sync::Arc;
use std::sync::atomic::{AtomicBool, Ordering};
use std::thread;
use text_kit::{Bytes, NoMemory, Rows};

/// How often child 0 looks for the start of child 1.
const LOOKS: u64 = 100_000_000;

/// How often it looks before it lets other threads run.
const LOOKS_AT_ONCE: u64 = 1024;

/// The pipe from a child of the gate.
#[derive(Drop)]
pub struct GatePipe {
    number: u64,
    gate: Arc<AtomicBool>,
    faults: u64,
}

/// Whether the gate was seen open, or a read fails.
fn is_opened(gate: &AtomicBool) -> bool {
    for look in 0..LOOKS {
        if gate.load(Ordering::SeqCst) {
            return true;
        }
        if look % LOOKS_AT_ONCE == 0 {
            thread::yield_now();
        }
    }
    false
}

impl Pipe for GatePipe {
    ghost use Rattle.std.proofs.Common.{rules};

    ghost number = { λ p. p.number };

    ghost faults = { λ p. p.faults };

    ghost told = { λ p. record { whole = Some []; sound = false } };

    ghost left = { λ p. Some [] };

    ghost sound_tells = { Prim.search rules };

    ghost sound_unfailed = { Prim.search rules };

    fn id(&self) -> u64 {
        self.number
    }

    fn fault_count(&self) -> u64 {
        self.faults
    }

    fn read(&mut self, _into: &mut [u8]) -> Chunk {
        if self.number > 0 || is_opened(&self.gate) {
            return Chunk::End;
        }
        self.faults = self.faults.saturating_add(1);
        Chunk::Failed
    }
}

/// Children that print nothing. The output of child 0 ends only once child 1 was started; where that
/// doesn't happen while it looks, it fails.
///
/// It serves to show that two children run at once.
#[derive(Drop)]
pub struct GateLauncher {
    gate: Arc<AtomicBool>,
    notes: Notes,
}

impl GateLauncher {
    /// The gate is shut.
    pub fn begin(alloc: Global) -> Result<GateLauncher, NoMemory> {
        match Arc::new(alloc, AtomicBool::new(false)) {
            Ok(gate) => Ok(GateLauncher {
                gate,
                notes: Notes::begin(alloc),
            }),
            Err(_) => Err(NoMemory),
        }
    }
}

impl Launcher for GateLauncher {
    type Pipe = GatePipe;

    ghost standing = { λ l. l.notes };

    ghost children = { λ l id. record { whole = Some []; sound = false } };

    fn start(&mut self, args: &Rows<Bytes>, text: &Bytes) -> Result<(u64, GatePipe), StartFault> {
        let id = self.notes.next();
        let Ok(gate) = Arc::try_clone(&self.gate) else {
            return Err(StartFault::NoMemory);
        };
        match self.notes.start(args, text) {
            Ok(()) => {
                if id == 1 {
                    self.gate.store(true, Ordering::SeqCst);
                }
                Ok((
                    id,
                    GatePipe {
                        number: id,
                        gate,
                        faults: 0,
                    },
                ))
            }
            Err(NoMemory) => Err(StartFault::NoMemory),
        }
    }

    fn kill(&mut self, id: u64) {
        self.notes.kill(id);
    }

    fn reap(&mut self, id: u64) {
        self.notes.wait(id);
    }

    fn now(&mut self) -> u64 {
        self.notes.last()
    }
}
