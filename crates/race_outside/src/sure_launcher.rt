ghost use Rattle.std.specs.Prelude.{◌≡◌, ◌≢◌, ◌<◌, All, IfOk, OnOk, OnErr, Some, Err, slice_get, [], ◌==◌};
ghost use Rattle.race_outside.specs.Pipes.{IsFresh};
ghost use Rattle.race_outside.specs.Launchers.{Starts, Refuses};
ghost use Rattle.race_outside.specs.Memory.{told_sure, sure_flow_of, unused};

use crate::notes::Notes;
use crate::{Launcher, StartFault, SurePipe};
use race_core::Order;
use std::alloc::Global;
use std::marker::Model;
use text_kit::{Bytes, NoMemory, Rows};

/// Children in memory that never fail, by their ids; one beyond the list prints nothing. The moment is
/// always 0.
#[derive(Debug, Drop)]
pub struct SureLauncher {
    children: Rows<Bytes>,
    notes: Notes,
}

impl Model for SureLauncher {
    ghost use Rattle.race_outside.specs.Memory.{SureLaunches};

    ghost Value = { SureLaunches };

    ghost view = { λ l. record { children = l.children; standing = l.notes } };
}

fn copy_bytes(alloc: Global, children: &Rows<Bytes>, id: u64) -> Result<SurePipe, NoMemory>
    ensures { IfOk result (λ pipe. pipe ≡ sure_flow_of id (slice_get children.now id)) }
{
    match children.get(id as usize) {
        Some(child) => {
            let bytes = child.copy(alloc)?;
            Ok(SurePipe::begin(id, bytes))
        }
        None => Ok(SurePipe::begin(id, Bytes::begin(alloc))),
    }
}

impl SureLauncher {
    /// Children that print these bytes.
    pub fn begin(alloc: Global, children: Rows<Bytes>) -> SureLauncher
        ensures { result ≡ record { children = children; standing = unused } }
    {
        SureLauncher {
            children,
            notes: Notes::begin(alloc),
        }
    }

    /// What the children were started with, in their order.
    pub fn orders(&self) -> &Rows<Order>
        ensures { Some result.now ≡ self.now.standing.orders }
    {
        self.notes.orders()
    }

    /// The ids that were killed, in their order.
    pub fn kills(&self) -> &[u64]
        ensures { result.now ≡ self.now.standing.kills }
    {
        self.notes.kills()
    }

    /// The ids that were waited for, in their order.
    pub fn waits(&self) -> &[u64]
        ensures { result.now ≡ self.now.standing.waits }
    {
        self.notes.waits()
    }
}

impl Launcher for SureLauncher {
    type Pipe = SurePipe;

    ghost standing = { λ l. l.standing };

    ghost children = { λ l id. told_sure (slice_get l.children id) };

    fn start(&mut self, args: &Rows<Bytes>, text: &Bytes) -> Result<(u64, SurePipe), StartFault>
        ensures started { OnOk result (Starts (record { args = args.now; problem = text.now }) self.old.standing self.new.standing) }
        ensures id { IfOk result (λ child. child.0 ≡ self.old.standing.starts) }
        ensures pipe { IfOk result (λ child. child.1 ≡ sure_flow_of self.old.standing.starts (slice_get self.old.children self.old.standing.starts)) }
        ensures refused { OnErr result (self.new.standing ≡ self.old.standing) }
        ensures sure { result ≢ Err StartFault.Failed }
        ensures killed { All (λ i. i < self.old.standing.starts) self.old.standing.kills }
        ensures waited { All (λ i. i < self.old.standing.starts) self.old.standing.waits }
        ensures same_children { self.new.children ≡ self.old.children }
    {
        let id = self.notes.next();
        let Ok(pipe) = copy_bytes(self.children.allocator(), &self.children, id) else {
            return Err(StartFault::NoMemory);
        };
        match self.notes.start(args, text) {
            Ok(()) => Ok((id, pipe)),
            Err(NoMemory) => Err(StartFault::NoMemory),
        }
    }

    fn kill(&mut self, id: u64) {
        self.notes.kill(id);
    }

    fn reap(&mut self, id: u64) {
        self.notes.wait(id);
    }

    fn now(&mut self) -> u64 {
        self.notes.last()
    }
}
