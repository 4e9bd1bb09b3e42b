ghost use Rattle.std.specs.Prelude.{◌≡◌, ◌≤◌, ◌<◌, ◌^◌, [], All, IfOk, OnOk, OnErr, IsTrue, Some, Err, slice_get};
ghost use Rattle.race_core.specs.Standings.{is_listed};
ghost use Rattle.race_outside.specs.Causes.{Rose};
ghost use Rattle.race_outside.specs.Pipes.{IsFresh};
ghost use Rattle.race_outside.specs.Launchers.{Starts, Refuses};
ghost use Rattle.race_outside.specs.Memory.{told_of, told_by, flow_of, unused};

use crate::listed::is_listed_call;
use crate::notes::Notes;
use crate::{Child, Launcher, MemoryPipe, StartFault};
use race_core::Order;
use std::alloc::Global;
use std::marker::Model;
use text_kit::{Bytes, NoMemory, Rows};

/// Children in memory, by their ids; one beyond the list prints nothing. The listed starts fail, and no
/// others. Starts are counted from 0, refused ones too.
#[derive(Debug, Drop)]
pub struct MemoryLauncher {
    children: Rows<Child>,
    fails: Rows<u64>,
    calls: u64,
    moments: Rows<u64>,
    at: usize,
    notes: Notes,
}

impl Model for MemoryLauncher {
    ghost use Rattle.std.specs.Prelude.{◌<◌, ◌^◌, All, drop};
    ghost use Rattle.race_outside.specs.Memory.{MemoryLaunches};

    ghost Value = { MemoryLaunches };

    ghost view = { λ l. record { children = l.children; fails = l.fails; calls = l.calls; moments = drop l.at l.moments; standing = l.notes } };

    ghost invariant = { λ l. All (λ m. m < 2 ^ 63) l.moments };
}

fn copy_child(alloc: Global, children: &Rows<Child>, id: u64) -> Result<MemoryPipe, NoMemory>
    ensures { IfOk result (λ pipe. pipe ≡ flow_of id (slice_get children.now id)) }
{
    match children.get(id as usize) {
        Some(child) => {
            let bytes = child.bytes.copy(alloc)?;
            match child.fails.copy(alloc) {
                Ok(fails) => Ok(MemoryPipe::begin(id, bytes, fails)),
                Err(NoMemory) => Err(NoMemory),
            }
        }
        None => Ok(MemoryPipe::begin(id, Bytes::begin(alloc), Rows::begin(alloc))),
    }
}

impl MemoryLauncher {
    /// These children, whose starts with these numbers fail. The moment is always 0.
    pub fn begin(alloc: Global, children: Rows<Child>, fails: Rows<u64>) -> MemoryLauncher
        ensures { result ≡ record { children = children; fails = fails; calls = 0; moments = []; standing = unused } }
    {
        MemoryLauncher {
            children,
            fails,
            calls: 0,
            moments: Rows::begin(alloc),
            at: 0,
            notes: Notes::begin(alloc),
        }
    }

    /// The same with a clock that gives these moments, each raised to the last one, and then stays.
    pub fn with_moments(self, moments: Rows<u64>) -> MemoryLauncher
        requires { All (λ m. m < 2 ^ 63) moments }
        ensures { result ≡ record self { moments = moments } }
    {
        let MemoryLauncher {
            children,
            fails,
            calls,
            moments: _,
            at: _,
            notes,
        } = self;
        MemoryLauncher {
            children,
            fails,
            calls,
            moments,
            at: 0,
            notes,
        }
    }

    /// What the children were started with, in their order.
    pub fn orders(&self) -> &Rows<Order>
        ensures { Some result.now ≡ self.now.standing.orders }
    {
        self.notes.orders()
    }

    /// The ids that were killed, in their order.
    pub fn kills(&self) -> &[u64]
        ensures { result.now ≡ self.now.standing.kills }
    {
        self.notes.kills()
    }

    /// The ids that were waited for, in their order.
    pub fn waits(&self) -> &[u64]
        ensures { result.now ≡ self.now.standing.waits }
    {
        self.notes.waits()
    }
}

impl Launcher for MemoryLauncher {
    type Pipe = MemoryPipe;

    ghost standing = { λ l. l.standing };

    ghost children = { λ l id. told_of (slice_get l.children id) };

    fn start(&mut self, args: &Rows<Bytes>, text: &Bytes) -> Result<(u64, MemoryPipe), StartFault>
        ensures started { OnOk result (Starts (record { args = args.now; problem = text.now }) self.old.standing self.new.standing) }
        ensures id { IfOk result (λ child. child.0 ≡ self.old.standing.starts) }
        ensures pipe { IfOk result (λ child. IsFresh child.1.number child.1.faults (told_by child.1) (Some child.1.flow.left) self.old.standing.starts (told_of (slice_get self.old.children self.old.standing.starts))) }
        ensures refused { OnErr result (Refuses self.old.standing self.new.standing) }
        ensures listed { IsTrue (is_listed self.old.calls self.old.fails) → result ≡ Err StartFault.Failed }
        ensures unlisted { result ≡ Err StartFault.Failed → IsTrue (is_listed self.old.calls self.old.fails) }
        ensures cause { result ≡ Err StartFault.Failed → Rose self.old.standing.faults self.new.standing.faults }
        ensures killed { All (λ i. i < self.old.standing.starts) self.old.standing.kills }
        ensures waited { All (λ i. i < self.old.standing.starts) self.old.standing.waits }
        ensures same_children { self.new.children ≡ self.old.children }
    {
        let id = self.notes.next();
        let call = self.calls;
        self.calls = call.saturating_add(1);
        if is_listed_call(call, &self.fails) {
            self.notes.fail();
            return Err(StartFault::Failed);
        }
        let Ok(pipe) = copy_child(self.children.allocator(), &self.children, id) else {
            return Err(StartFault::NoMemory);
        };
        match self.notes.start(args, text) {
            Ok(()) => Ok((id, pipe)),
            Err(NoMemory) => Err(StartFault::NoMemory),
        }
    }

    fn kill(&mut self, id: u64) {
        self.notes.kill(id);
    }

    fn reap(&mut self, id: u64) {
        self.notes.wait(id);
    }

    fn now(&mut self) -> u64 {
        if self.at < self.moments.len() {
            let moment = *self.moments.at(self.at);
            self.at += 1;
            return self.notes.tick(moment);
        }
        self.notes.last()
    }
}
