ghost use Rattle.std.specs.Prelude.{◌≡◌, ◌<◌, ◌^◌, None, false, IfSome};
ghost use Rattle.child_launcher.specs.Untold.{unused};

use crate::ChildPipe;
use crate::account::Account;
use crate::launching::{end, launch};
use race_outside::{Launcher, StartFault};
use std::alloc::Global;
use std::marker::Model;
use std::process::{Child, Processes, SystemProcess};
use std::time::{Clock, Instant};
use text_kit::{Bytes, NoMemory, Rows};

/// The processes of the machine. It tells nothing of what its children were started with or print.
///
/// A program is looked up as the machine does, and what it writes as errors is lost. A start never waits
/// for the child: the text that it doesn't take at once is given to it while its output is read.
#[derive(Drop)]
pub struct ChildLauncher<'r, R: Processes<Started = SystemProcess> + Clock> {
    rt: &'r R,
    alloc: Global,
    begun: Option<Instant>,
    children: Vec<Child<SystemProcess>>,
    account: Account,
}

impl<'r, R: Processes<Started = SystemProcess> + Clock> Model for ChildLauncher<'r, R> {
    ghost use Rattle.std.specs.Prelude.{◌≡◌, vec_len};
    ghost use Rattle.race_core.specs.Standings.{Standing};

    ghost Value = { Standing };

    ghost view = { λ l. l.account };

    ghost invariant = { λ l. vec_len l.children ≡ l.account.starts };
}

impl<'r, R: Processes<Started = SystemProcess> + Clock> ChildLauncher<'r, R> {
    /// A launcher that has started no child. Its moments are milliseconds from here on.
    pub fn begin(alloc: Global, rt: &'r R) -> ChildLauncher<'r, R>
        ensures { result ≡ unused }
    {
        ChildLauncher {
            rt,
            alloc,
            begun: Instant::now(rt).ok(),
            children: Vec::new(alloc),
            account: Account::begin(alloc),
        }
    }

    /// How often it failed. It takes no memory.
    pub fn fault_count(&self) -> u64
        ensures { result ≡ self.now.faults }
    {
        self.account.fault_count()
    }
}

// The milliseconds since this instant, where the clock can be read.
fn since(begun: Option<Instant>, clock: &impl Clock) -> Option<u64>
    ensures { IfSome result (λ moment. moment < 2 ^ 63) }
{
    let now = Instant::now(clock).ok()?;
    let passed = now.duration_since(begun?).as_millis();
    if passed < 1 << 63 {
        return Some(passed as u64);
    }
    None
}

impl<'r, R: Processes<Started = SystemProcess> + Clock + Sync> Launcher for ChildLauncher<'r, R> {
    type Pipe = ChildPipe;

    ghost standing = { λ l. l };

    ghost children = { λ l id. record { whole = None; sound = false } };

    fn start(&mut self, args: &Rows<Bytes>, text: &Bytes) -> Result<(u64, ChildPipe), StartFault> {
        let id = self.account.next();
        if self.children.reserve(1).is_err() {
            return Err(StartFault::NoMemory);
        }
        match launch(self.rt, self.alloc, args, text) {
            Ok(launched) => {
                let mut child = launched.child;
                match self.account.start() {
                    Ok(()) => {
                        self.children.push_reserved(child);
                        Ok((id, ChildPipe::begin(id, launched.feed, launched.output)))
                    }
                    Err(NoMemory) => {
                        end(&mut child);
                        Err(StartFault::NoMemory)
                    }
                }
            }
            Err(fault) => {
                if fault == StartFault::Failed {
                    self.account.fail();
                }
                Err(fault)
            }
        }
    }

    fn kill(&mut self, id: u64) {
        if self.children[id as usize].kill().is_err() {
            self.account.fail();
        }
        self.account.kill(id);
    }

    fn reap(&mut self, id: u64) {
        if !end(&mut self.children[id as usize]) {
            self.account.fail();
        }
        self.account.wait(id);
    }

    fn now(&mut self) -> u64 {
        match since(self.begun, self.rt) {
            Some(moment) => self.account.tick(moment),
            None => self.account.last(),
        }
    }
}
