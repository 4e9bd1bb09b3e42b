ghost use Rattle.std.specs.Prelude.{◌≡◌, ◌≤◌, ◌<◌, ◌^◌, ℕ, Bool, List, Option, IfOk, OnOk, OnErr, IsTrue, IsSome, Err};
ghost use Rattle.race_outside.specs.Causes.{Rose};
ghost use Rattle.race_outside.specs.Shelves.{Files, Fetched, Begun, Lacks};

use crate::FetchFault;
use text_kit::Bytes;

/// Where files are read from.
///
/// A shelf that tells its content tells it of all names and for good. A sure shelf tells, and fails only
/// at a name under which it holds nothing.
pub trait Shelf: Drop {
    /// What is held under each name, where the shelf tells.
    ghost held: { Self → Option Files };

    /// Whether it is sure.
    ghost sure: { Self → Bool };

    /// How often it failed; it never falls.
    ghost faults: { Self → ℕ };

    /// Puts the first `limit + 1` bytes of a file in the place of `into`, or all where there are fewer.
    ///
    /// After a refusal `into` holds a beginning of them.
    fn fetch(&mut self, name: &str, limit: u64, into: &mut Bytes) -> Result<(), FetchFault>
        requires { limit < 2 ^ 32 }
        ensures fetched { OnOk result (Fetched (held self.old) name.now limit into.new) }
        ensures begun { OnErr result (Begun (held self.old) name.now limit into.new) }
        ensures absent { Lacks (held self.old) name.now → result ≡ Err FetchFault.Failed }
        ensures sure_fails { IsTrue (sure self.old) → result ≡ Err FetchFault.Failed → Lacks (held self.old) name.now }
        ensures cause { result ≡ Err FetchFault.Failed → Rose (faults self.old) (faults self.new) }
        ensures later { faults self.old ≤ faults self.new }
        ensures same_held { held self.new ≡ held self.old }
        ensures same_sure { sure self.new ≡ sure self.old };

    /// A sure shelf tells.
    ghost sure_tells: { (s : Self) → IsTrue (sure s) → IsSome (held s) };
}
