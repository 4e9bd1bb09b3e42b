ghost use Rattle.std.specs.Prelude.{◌≡◌, ◌+◌, ◌<◌, ◌^◌, ◌++◌, ◌∷◌, [], max, All, IfOk, OnOk, OnErr, Some, false, option_map};
ghost use Rattle.race_core.specs.Standings.{Standing, is_listed};
ghost use Rattle.race_outside.specs.Causes.{Rose};
ghost use Rattle.race_outside.specs.Launchers.{Refuses};
ghost use Rattle.race_outside.specs.Memory.{unused};

use race_core::Order;
use std::alloc::Global;
use std::marker::Model;
use text_kit::{Bytes, NoMemory, Rows};

/// What a launcher in memory notes of its starts, kills, waits, failures and moments.
#[derive(Debug, Drop)]
pub(crate) struct Notes {
    orders: Rows<Order>,
    kills: Vec<u64>,
    waits: Vec<u64>,
    faults: u64,
    last: u64,
}

impl Model for Notes {
    ghost use Rattle.std.specs.Prelude.{length, vec_capacity, Some};
    ghost use Rattle.race_core.specs.Standings.{Standing};
    ghost use Rattle.race_outside.specs.inner.Notes.{IsNoted};

    ghost Value = { Standing };

    ghost view = { λ n. record { starts = length n.orders; orders = Some n.orders; kills = n.kills.items; waits = n.waits.items; faults = n.faults; last = n.last } };

    ghost invariant = { λ n. IsNoted (length n.orders) n.kills.items n.waits.items (vec_capacity n.kills) (vec_capacity n.waits) n.last };
}

fn copy_order(alloc: Global, args: &Rows<Bytes>, text: &Bytes) -> Result<Order, NoMemory>
    ensures { IfOk result (λ order. order ≡ record { args = args.now; problem = text.now }) }
{
    let args = args.copy(alloc)?;
    match text.copy(alloc) {
        Ok(problem) => Ok(Order { args, problem }),
        Err(NoMemory) => Err(NoMemory),
    }
}

impl Notes {
    /// No notes. It takes no memory.
    pub(crate) fn begin(alloc: Global) -> Notes
        ensures { result ≡ unused }
    {
        Notes {
            orders: Rows::begin(alloc),
            kills: Vec::new(alloc),
            waits: Vec::new(alloc),
            faults: 0,
            last: 0,
        }
    }

    /// The id of the next start, which none has that was killed or waited for.
    pub(crate) fn next(&self) -> u64
        ensures id { result ≡ self.now.starts }
        ensures killed { All (λ i. i < self.now.starts) self.now.kills }
        ensures waited { All (λ i. i < self.now.starts) self.now.waits }
    {
        self.orders.len() as u64
    }

    /// Notes a start, and makes room for its kill and its wait.
    pub(crate) fn start(&mut self, args: &Rows<Bytes>, text: &Bytes) -> Result<(), NoMemory>
        ensures ok { OnOk result (self.new ≡ record self.old { starts = self.old.starts + 1; orders = option_map (λ earlier. earlier ++ (record { args = args.now; problem = text.now }) ∷ []) self.old.orders }) }
        ensures err { OnErr result (self.new ≡ self.old) }
    {
        let Some(most) = self.orders.len().checked_add(1) else {
            return Err(NoMemory);
        };
        if self.kills.reserve(most).is_err() || self.waits.reserve(most).is_err() {
            return Err(NoMemory);
        }
        match copy_order(self.orders.allocator(), args, text) {
            Ok(order) => self.orders.push(order),
            Err(NoMemory) => Err(NoMemory),
        }
    }

    /// Notes a failure.
    pub(crate) fn fail(&mut self)
        ensures refuses { Refuses self.old self.new }
        ensures cause { Rose self.old.faults self.new.faults }
    {
        self.faults = self.faults.saturating_add(1);
    }

    /// Notes a kill.
    pub(crate) fn kill(&mut self, id: u64)
        requires started { id < self.old.starts }
        requires unkilled { is_listed id self.old.kills ≡ false }
        ensures { self.new ≡ record self.old { kills = self.old.kills ++ id ∷ [] } }
    {
        self.kills.push_reserved(id);
    }

    /// Notes a wait.
    pub(crate) fn wait(&mut self, id: u64)
        requires started { id < self.old.starts }
        requires unwaited { is_listed id self.old.waits ≡ false }
        ensures { self.new ≡ record self.old { waits = self.old.waits ++ id ∷ [] } }
    {
        self.waits.push_reserved(id);
    }

    /// The moment, raised to the last one, which it becomes.
    pub(crate) fn tick(&mut self, moment: u64) -> u64
        requires { moment < 2 ^ 63 }
        ensures moment { result ≡ max self.old.last moment }
        ensures bound { result < 2 ^ 63 }
        ensures noted { self.new ≡ record self.old { last = result } }
    {
        self.last = self.last.max(moment);
        self.last
    }

    /// The last moment.
    pub(crate) fn last(&self) -> u64
        ensures last { result ≡ self.now.last }
        ensures bound { result < 2 ^ 63 }
    {
        self.last
    }

    pub(crate) fn orders(&self) -> &Rows<Order>
        ensures { Some result.now ≡ self.now.orders }
    {
        &self.orders
    }

    pub(crate) fn kills(&self) -> &[u64]
        ensures { result.now ≡ self.now.kills }
    {
        self.kills.as_slice()
    }

    pub(crate) fn waits(&self) -> &[u64]
        ensures { result.now ≡ self.now.waits }
    {
        self.waits.as_slice()
    }
}
