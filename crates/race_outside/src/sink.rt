ghost use Rattle.std.specs.Prelude.{◌≡◌, ◌≤◌, ℕ, List, Option, OnOk, OnErr, IsErr};
ghost use Rattle.race_outside.specs.Causes.{Rose};
ghost use Rattle.race_outside.specs.Sinks.{TookAll, TookSome};

use crate::Failed;

/// Where text is put.
pub trait Sink: Drop {
    /// The bytes taken so far, where the sink tells.
    ghost taken: { Self → Option (List ℕ) };

    /// How often it failed; it never falls.
    ghost faults: { Self → ℕ };

    /// Puts a piece behind what was taken. Where that fails, a beginning of the piece was taken.
    fn put(&mut self, piece: &[u8]) -> Result<(), Failed>
        ensures all { OnOk result (TookAll (taken self.old) piece.now (taken self.new)) }
        ensures some { OnErr result (TookSome (taken self.old) piece.now (taken self.new)) }
        ensures cause { IsErr result → Rose (faults self.old) (faults self.new) }
        ensures later { faults self.old ≤ faults self.new };
}
