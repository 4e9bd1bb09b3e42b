ghost use Rattle.std.specs.Prelude.{◌≡◌, ◌<◌, false, length, IsTrue, IfOk};
ghost use Rattle.race_outside.specs.Turns.{Turns};
ghost use Rattle.slot_work.specs.Visible.{goal_fits};
ghost use Rattle.slot_work.specs.Answers.{key_of, KeyAnswers};

use crate::slot::Slot;
use crate::stage::{Next, Stage};
use crate::turns::next;
use hol_kernel::Proven;
use race_outside::WorkTurn;
use std::alloc::Global;
use std::marker::Model;
use std::mem::replace;
use text_kit::{Bytes, NoMemory};
use theory_reader::Theory;

/// The work on the bytes of one child, in turns: the first reads them and searches with the facts that they use, each further one makes one
/// search of the minimiser, and the last one the proof.
#[derive(Drop)]
pub struct SlotTask<'t> {
    slot: Slot<'t>,
    stage: Stage,
}

impl<'t> Model for SlotTask<'t> {
    ghost use Rattle.std.specs.Prelude.{ℕ, Bool, List, refl};
    ghost use Rattle.std.specs.Coded.{code_by, coded×, coded_list, coded_ℕ, coded_bool};
    ghost use Rattle.slot_work.specs.Answers.{key_of};
    ghost use Rattle.slot_work.specs.inner.Tasks.{Working, IsSlot, StandsAt, is_over, left_at, beside};

    ghost Value = { Working };

    ghost coded = { code_by (List ℕ × (List ℕ × (Bool × ℕ))) (coded× (coded_list coded_ℕ) (coded× (coded_list coded_ℕ) (coded× coded_bool coded_ℕ))) (λ w. (w.key, (w.bytes, (w.over, w.left)))) (λ p. record { key = p.0; bytes = p.1.0; over = p.1.1.0; left = p.1.1.1 }) (λ _. refl) };

    ghost view = { λ t. record { key = key_of t.slot.theory.now t.slot.goal t.slot.budget; bytes = t.slot.bytes; over = is_over t.stage; left = left_at (beside t.slot) t.stage } };

    ghost invariant = { λ t. IsSlot t.slot × StandsAt t.slot t.stage };
}

impl<'t> SlotTask<'t> {
    /// Begins the work on these bytes.
    pub(crate) fn begin(
        alloc: Global,
        theory: &'t Theory,
        goal: u32,
        budget: u32,
        bytes: &Bytes,
    ) -> Result<SlotTask<'t>, NoMemory>
        requires goal { goal < length theory.now.goals }
        requires fits { IsTrue (goal_fits theory.now goal) }
        ensures key { IfOk result (λ t. t.key ≡ key_of theory.now goal budget) }
        ensures bytes { IfOk result (λ t. t.bytes ≡ bytes.now) }
        ensures open { IfOk result (λ t. t.over ≡ false) }
    {
        let env = theory.env(alloc, goal)?;
        let bytes = bytes.copy(alloc)?;
        Ok(SlotTask {
            slot: Slot {
                theory,
                goal,
                budget,
                env,
                bytes,
            },
            stage: Stage::Begun,
        })
    }

    /// One turn.
    pub(crate) fn turn(&mut self) -> WorkTurn<Proven>
        requires { self.old.over ≡ false }
        ensures answer { Turns (KeyAnswers self.old.key self.old.bytes) self.new.over result }
        ensures nearer { self.new.left < self.old.left }
        ensures same_key { self.new.key ≡ self.old.key }
        ensures same_bytes { self.new.bytes ≡ self.old.bytes }
    {
        let stage = replace(&mut self.stage, Stage::Over);
        match next(&self.slot, stage) {
            Next::Goes(stage) => {
                self.stage = stage;
                WorkTurn::More
            }
            Next::Ends(outcome) => WorkTurn::Done(outcome),
        }
    }
}
