use crate::job::Job;
use crate::task::SlotTask;
use hol_kernel::Proven;
use race_outside::{Work, WorkTurn};
use std::alloc::Global;
use text_kit::{Bytes, NoMemory};

impl<'t> Work for Job<'t> {
    ghost use Rattle.slot_work.specs.Answers.{key_of, KeyAnswers};
    ghost use Rattle.slot_work.specs.inner.Outcomes.{key_answer_is};

    type Proof = Proven;

    type Task = SlotTask<'t>;

    ghost key = { λ j. key_of j.theory j.goal j.budget };

    ghost answers = { λ key bytes o. KeyAnswers key bytes o };

    ghost task_key = { λ t. t.key };

    ghost task_bytes = { λ t. t.bytes };

    ghost over = { λ t. t.over };

    ghost turns = { λ t. t.left };

    ghost answers_bytes = { λ key bytes o a. key_answer_is key bytes o a };

    fn begin(&self, alloc: Global, bytes: &Bytes) -> Result<SlotTask<'t>, NoMemory> {
        SlotTask::begin(alloc, self.theory, self.goal, self.budget, bytes)
    }

    fn turn(&self, task: &mut SlotTask<'t>) -> WorkTurn<Proven> {
        task.turn()
    }
}
