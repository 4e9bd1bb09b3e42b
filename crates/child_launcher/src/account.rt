ghost use Rattle.std.specs.Prelude.{◌≡◌, ◌+◌, ◌<◌, ◌^◌, ◌++◌, ◌∷◌, [], max, All, None, OnOk, OnErr, false};
ghost use Rattle.race_core.specs.Standings.{Standing, is_listed};
ghost use Rattle.race_outside.specs.Causes.{Rose};
ghost use Rattle.race_outside.specs.Launchers.{Refuses};
ghost use Rattle.child_launcher.specs.Untold.{unused};

use std::alloc::Global;
use std::marker::Model;
use text_kit::NoMemory;

/// What a launcher of real children has done. It doesn't keep what they were started with.
#[derive(Debug, Drop)]
pub(crate) struct Account {
    starts: u64,
    kills: Vec<u64>,
    waits: Vec<u64>,
    faults: u64,
    last: u64,
}

impl Model for Account {
    ghost use Rattle.std.specs.Prelude.{vec_capacity, None};
    ghost use Rattle.race_core.specs.Standings.{Standing};
    ghost use Rattle.race_outside.specs.inner.Notes.{IsNoted};

    ghost Value = { Standing };

    ghost view = { λ a. record { starts = a.starts; orders = None; kills = a.kills.items; waits = a.waits.items; faults = a.faults; last = a.last } };

    ghost invariant = { λ a. IsNoted a.starts a.kills.items a.waits.items (vec_capacity a.kills) (vec_capacity a.waits) a.last };
}

impl Account {
    /// Nothing was done. It takes no memory.
    pub(crate) fn begin(alloc: Global) -> Account
        ensures { result ≡ unused }
    {
        Account {
            starts: 0,
            kills: Vec::new(alloc),
            waits: Vec::new(alloc),
            faults: 0,
            last: 0,
        }
    }

    /// The id of the next start, which none has that was killed or waited for. Orders aren't told.
    pub(crate) fn next(&self) -> u64
        ensures id { result ≡ self.now.starts }
        ensures untold { self.now.orders ≡ None }
        ensures killed { All (λ i. i < self.now.starts) self.now.kills }
        ensures waited { All (λ i. i < self.now.starts) self.now.waits }
    {
        self.starts
    }

    /// Notes a start, and makes room for its kill and its wait.
    pub(crate) fn start(&mut self) -> Result<(), NoMemory>
        requires { self.old.starts < 2 ^ 63 }
        ensures ok { OnOk result (self.new ≡ record self.old { starts = self.old.starts + 1 }) }
        ensures err { OnErr result (self.new ≡ self.old) }
    {
        let most = self.starts as usize + 1;
        if self.kills.reserve(most).is_err() || self.waits.reserve(most).is_err() {
            return Err(NoMemory);
        }
        self.starts += 1;
        Ok(())
    }

    /// Notes a failure.
    pub(crate) fn fail(&mut self)
        ensures refuses { Refuses self.old self.new }
        ensures cause { Rose self.old.faults self.new.faults }
    {
        self.faults = self.faults.saturating_add(1);
    }

    /// Notes a kill.
    pub(crate) fn kill(&mut self, id: u64)
        requires started { id < self.old.starts }
        requires unkilled { is_listed id self.old.kills ≡ false }
        ensures { self.new ≡ record self.old { kills = self.old.kills ++ id ∷ [] } }
    {
        self.kills.push_reserved(id);
    }

    /// Notes a wait.
    pub(crate) fn wait(&mut self, id: u64)
        requires started { id < self.old.starts }
        requires unwaited { is_listed id self.old.waits ≡ false }
        ensures { self.new ≡ record self.old { waits = self.old.waits ++ id ∷ [] } }
    {
        self.waits.push_reserved(id);
    }

    /// The moment, raised to the last one, which it becomes.
    pub(crate) fn tick(&mut self, moment: u64) -> u64
        requires { moment < 2 ^ 63 }
        ensures moment { result ≡ max self.old.last moment }
        ensures bound { result < 2 ^ 63 }
        ensures noted { self.new ≡ record self.old { last = result } }
    {
        self.last = self.last.max(moment);
        self.last
    }

    /// The last moment.
    pub(crate) fn last(&self) -> u64
        ensures last { result ≡ self.now.last }
        ensures bound { result < 2 ^ 63 }
    {
        self.last
    }

    /// How often the launcher failed.
    pub(crate) fn fault_count(&self) -> u64
        ensures { result ≡ self.now.faults }
    {
        self.faults
    }
}
