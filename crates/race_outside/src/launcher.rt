ghost use Rattle.std.specs.Prelude.{◌≡◌, ◌≤◌, ◌<◌, ◌^◌, ℕ, All, IfOk, OnOk, OnErr, Err, false};
ghost use Rattle.race_core.specs.Standings.{Standing, is_listed};
ghost use Rattle.race_outside.specs.Causes.{Rose};
ghost use Rattle.race_outside.specs.Pipes.{Told, IsFresh};
ghost use Rattle.race_outside.specs.Launchers.{Starts, Refuses, Kills, Waits, Ticks};

use crate::{Pipe, StartFault};
use text_kit::{Bytes, Rows};

/// What starts, kills and waits for children, and has a clock.
pub trait Launcher: Send + Drop {
    /// The output of its children.
    type Pipe: Pipe;

    /// What it has done so far.
    ghost standing: { Self → Standing };

    /// What is told of the child with each id. It never changes.
    ghost children: { Self → ℕ → Told };

    /// Starts a child with these words, the program first, and this text to read. Its id is the number of
    /// starts that succeeded before.
    ///
    /// The notes of its kill and its wait are reserved here.
    fn start(&mut self, args: &Rows<Bytes>, text: &Bytes) -> Result<(u64, Self::Pipe), StartFault>
        ensures started { OnOk result (Starts (record { args = args.now; problem = text.now }) (standing self.old) (standing self.new)) }
        ensures id { IfOk result (λ child. child.0 ≡ (standing self.old).starts) }
        ensures pipe { IfOk result (λ child. IsFresh (Self.Pipe.number child.1) (Self.Pipe.faults child.1) (Self.Pipe.told child.1) (Self.Pipe.left child.1) (standing self.old).starts (children self.old (standing self.old).starts)) }
        ensures refused { OnErr result (Refuses (standing self.old) (standing self.new)) }
        ensures cause { result ≡ Err StartFault.Failed → Rose (standing self.old).faults (standing self.new).faults }
        ensures killed { All (λ i. i < (standing self.old).starts) (standing self.old).kills }
        ensures waited { All (λ i. i < (standing self.old).starts) (standing self.old).waits }
        ensures same_children { children self.new ≡ children self.old };

    /// Kills a child. It takes no memory.
    fn kill(&mut self, id: u64)
        requires started { id < (standing self.old).starts }
        requires unkilled { is_listed id (standing self.old).kills ≡ false }
        requires unwaited { is_listed id (standing self.old).waits ≡ false }
        ensures kills { Kills id (standing self.old) (standing self.new) }
        ensures same_children { children self.new ≡ children self.old };

    /// Makes a child end if it still runs, and waits for it. It takes no memory.
    fn reap(&mut self, id: u64)
        requires started { id < (standing self.old).starts }
        requires unwaited { is_listed id (standing self.old).waits ≡ false }
        ensures waits { Waits id (standing self.old) (standing self.new) }
        ensures same_children { children self.new ≡ children self.old };

    /// The moment, in milliseconds, from a beginning of the launcher's own. It takes no memory.
    fn now(&mut self) -> u64
        ensures ticks { Ticks result (standing self.old) (standing self.new) }
        ensures bound { result < 2 ^ 63 }
        ensures same_children { children self.new ≡ children self.old };
}
