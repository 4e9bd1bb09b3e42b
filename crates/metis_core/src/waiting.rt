ghost use Rattle.std.specs.Prelude.{◌≡◌, ◌↔◌, ◌<◌, ◌≤◌, [], ◌∷◌, ◌++◌, IsTrue, MatchBool, MatchOption, IfOk, OnOk, OnErr, All};
ghost use Rattle.metis_core.specs.State.{without};
ghost use Rattle.metis_core.specs.Pick.{AreAscending, IsOldest, IsLightest};

use clause_ring::{Entry, Ring, Steps};
use std::alloc::Global;
use std::marker::{Brand, Model};
use std::sync::ledger::{Blank, Ledger};
use text_kit::NoMemory;

/// The waiting clauses, which contracts see as the list of their entries, whose numbers ascend.
#[derive(Debug, Drop)]
pub struct Waiting {
    ring: Ring,
}

impl Model for Waiting {
    ghost use Rattle.std.specs.Prelude.{List};
    ghost use Rattle.clause_ring.specs.declared.entry.Entry.{Entry};
    ghost use Rattle.metis_core.specs.Pick.{AreAscending};

    ghost Value = { List Entry };

    ghost view = { λ w. w.ring };

    ghost invariant = { λ w. AreAscending w.ring };
}

impl Waiting {
    /// None.
    pub fn begin(alloc: Global) -> Result<Waiting, NoMemory>
        ensures { IfOk result (λ waiting. waiting ≡ []) }
    {
        Ok(Waiting {
            ring: Ring::begin(alloc)?,
        })
    }

    /// Whether nothing waits.
    pub fn is_empty(&self) -> bool
        ensures { IsTrue result ↔ (self.now ≡ []) }
    {
        self.ring.is_empty()
    }

    /// One more, with a number that is later than all others.
    pub fn push(&mut self, entry: Entry) -> Result<(), NoMemory>
        requires light { entry.weight ≤ 512 }
        requires newest { All (λ e. e.number < entry.number) self.old }
        ensures ok { OnOk result (self.new ≡ self.old ++ entry ∷ []) }
        ensures err { OnErr result (self.new ≡ self.old) }
    {
        self.ring.push(entry)
    }

    /// Takes the clause of least number, or else that of least weight, then number. It takes no memory.
    pub fn pick(&mut self, oldest: bool) -> Option<Entry>
        ensures { MatchOption result ((self.old ≡ []) × (self.new ≡ [])) (λ e. MatchBool oldest (IsOldest self.old e) (IsLightest self.old e) × (self.new ≡ without e.number self.old)) }
    {
        take::<Brand>(&mut self.ring, oldest, Blank::new(1))
    }
}

/// Takes an entry out of a ring; nobody asks for the steps.
fn take<L: Ledger>(ring: &mut Ring, oldest: bool, blank: Blank) -> Option<Entry>
    requires name { blank.name ≡ L.name }
    requires parts { blank.parts ≡ L.parts }
    requires some { 0 < L.parts }
    requires ascends { AreAscending ring.old }
    ensures ascends { AreAscending ring.new }
    ensures taken { MatchOption result ((ring.old ≡ []) × (ring.new ≡ [])) (λ e. MatchBool oldest (IsOldest ring.old e) (IsLightest ring.old e) × (ring.new ≡ without e.number ring.old)) }
{
    let mut steps = Steps::<L>::begin(blank);
    if oldest {
        return ring.pick_old(&mut steps);
    }
    ring.pick_light(&mut steps)
}
