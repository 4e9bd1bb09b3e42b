ghost use Rattle.std.specs.Prelude.{◌≡◌, ◌<◌, ℕ, Bool, List, IfOk, IsTrue, false};
ghost use Rattle.race_core.specs.declared.outcome.Outcome.{Outcome};
ghost use Rattle.race_outside.specs.Works.{is_answer};
ghost use Rattle.race_outside.specs.Turns.{Turns};

use crate::WorkTurn;
use std::alloc::Global;
use text_kit::{Bytes, NoMemory};

/// What is done with the bytes that a child gave, in turns.
pub trait Work: Send + Sync {
    /// A proof that an outcome carries.
    type Proof: Send + Drop;

    /// The work on the bytes of one child.
    type Task: Send + Drop;

    /// Numbers that stand for the job, and determine it.
    ghost key: { Self → List ℕ };

    /// Which outcomes these bytes may have for the job of this key.
    ghost answers: { List ℕ → List ℕ → Outcome Self.Proof → Type 0 };

    /// The key of the job that began a task.
    ghost task_key: { Self.Task → List ℕ };

    /// The bytes that a task was begun with.
    ghost task_bytes: { Self.Task → List ℕ };

    /// Whether a task is over.
    ghost over: { Self.Task → Bool };

    /// How many turns a task has at most.
    ghost turns: { Self.Task → ℕ };

    /// Begins the work on these bytes.
    fn begin(&self, alloc: Global, bytes: &Bytes) -> Result<Self::Task, NoMemory>
        ensures key { IfOk result (λ task. task_key task ≡ key self.now) }
        ensures bytes { IfOk result (λ task. task_bytes task ≡ bytes.now) }
        ensures open { IfOk result (λ task. over task ≡ false) };

    /// One turn of a task. It goes on only where it made one pick of a search or ended one search.
    fn turn(&self, task: &mut Self::Task) -> WorkTurn<Self::Proof>
        requires key { task_key task.old ≡ key self.now }
        requires open { over task.old ≡ false }
        ensures answer { Turns (answers (key self.now) (task_bytes task.old)) (over task.new) result }
        ensures nearer { turns task.new < turns task.old }
        ensures same_key { task_key task.new ≡ task_key task.old }
        ensures same_bytes { task_bytes task.new ≡ task_bytes task.old };

    /// A work answers for bytes alone, and not for what befell their child.
    ghost answers_bytes: { (job bytes : List ℕ) (o : Outcome Self.Proof) → answers job bytes o → IsTrue (is_answer o) };
}
