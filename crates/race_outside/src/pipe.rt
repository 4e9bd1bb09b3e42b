ghost use Rattle.std.specs.Prelude.{◌≡◌, ◌≤◌, ◌<◌, ℕ, List, Option, IsTrue, IsSome, length};
ghost use Rattle.race_outside.specs.Causes.{Rose};
ghost use Rattle.race_outside.specs.Pipes.{Told, Reads};

use crate::Chunk;

/// The output of a child.
///
/// A pipe that tells, tells all bytes that its child gives and which of them weren't read yet. A sound
/// pipe tells, and never fails.
pub trait Pipe: Send + Drop {
    /// The id of the child.
    ghost number: { Self → ℕ };

    /// How often it failed; it never falls, and stands still at the end of its type.
    ghost faults: { Self → ℕ };

    /// What it tells of its child.
    ghost told: { Self → Told };

    /// The bytes that weren't read yet, where it tells.
    ghost left: { Self → Option (List ℕ) };

    /// The id of the child.
    fn id(&self) -> u64
        ensures { result ≡ number self.now };

    /// How often the pipe failed. It takes no memory.
    fn fault_count(&self) -> u64
        ensures { result ≡ faults self.now };

    /// Moves the next bytes to the front of `into`.
    fn read(&mut self, into: &mut [u8]) -> Chunk
        requires { 0 < length into.old }
        ensures bytes { Reads (left self.old) (left self.new) into.new result }
        ensures cause { result ≡ Chunk.Failed → Rose (faults self.old) (faults self.new) }
        ensures later { faults self.old ≤ faults self.new }
        ensures same_number { number self.new ≡ number self.old }
        ensures same_told { told self.new ≡ told self.old };

    /// A sound pipe tells.
    ghost sound_tells: { (p : Self) → IsTrue (told p).sound → IsSome (told p).whole };

    /// A sound pipe has never failed.
    ghost sound_unfailed: { (p : Self) → IsTrue (told p).sound → faults p ≡ 0 };
}
