ghost use Rattle.std.specs.Prelude.{◌≡◌, ◌⊎◌, ℕ, List, Option, Some, None, IsTrue, false, true, map, slice_get, [], length};
ghost use Rattle.race_core.specs.declared.event.Event.{Event};
ghost use Rattle.race_core.specs.declared.outcome.Outcome.{Outcome};
ghost use Rattle.race_core.specs.declared.outcome.Verdict.{Verdict};
ghost use Rattle.race_core.specs.declared.race.Race.{Race};
ghost use Rattle.race_core.specs.declared.slot.Kept.{Kept};
ghost use Rattle.race_core.specs.declared.slot.SlotEnd.{SlotEnd};
ghost use Rattle.race_core.specs.declared.slot.SlotState.{SlotState};
ghost use Rattle.race_core.specs.Histories.{first_proved, has_expired};
ghost use Rattle.race_core.specs.Ran.{unstarted};
ghost use Rattle.race_core.specs.Steps.{after, IsLegal};
ghost use Rattle.race_core.specs.Verdicts.{verdict_of};
ghost use Rattle.race_board.specs.Drains.{most_bytes};
ghost use Rattle.race_board.specs.Ends.{Terms, Right, is_read};

use race_outside::Work;

/// The winner's slot ended with a proof. It does nothing: its contract is the law.
pub fn winner_has_the_proof<W: Work>()
    ensures { (n : ℕ) (until : Option ℕ) (es : List Event) (r : Race) (ends : List (SlotEnd W.Proof)) (k : ℕ)
        → after n until es ≡ Some r → r.slots ≡ map (λ end. SlotState.Settled (verdict_of end.outcome)) ends → r.winner ≡ Some k
        → (end : SlotEnd W.Proof) × (p : W.Proof) × (slice_get ends k ≡ Some end) × (end.outcome ≡ Outcome.Proved p) }
{}

/// Where a slot's verdict is for what its child printed, and its pipe didn't fail, its end is an answer for what it keeps,
/// unless that is too long. It does nothing: its contract is the law.
pub fn heard_slots_are_answered<W: Work>()
    ensures { (terms : Terms) (until : Option ℕ) (k : ℕ) (kept : Kept) (o : Outcome W.Proof) (es : List Event)
        → Right (W.answers terms.key) terms until k kept o es → is_read (verdict_of o) ≡ true → kept.pipe_faults ≡ 0
        → (length kept.bytes ≡ most_bytes) ⊎ W.answers terms.key kept.bytes o }
{}

/// Behind a race without a winner, whose children are sound, whose starts succeeded and whose limit of time didn't pass, each
/// slot that didn't want for memory and isn't lost was heard. It does nothing: its contract is the law.
pub fn unwon_sound_slots_were_heard<W: Work>()
    ensures { (terms : Terms) (until : Option ℕ) (es : List Event) → IsLegal (length terms.orders) until es
        → first_proved es ≡ None → has_expired es ≡ false → unstarted es ≡ [] → ((i : ℕ) → IsTrue (terms.children i).sound)
        → (k : ℕ) (kept : Kept) (o : Outcome W.Proof) → Right (W.answers terms.key) terms until k kept o es
        → (verdict_of o ≡ Verdict.NoMemory → ⊥) → (verdict_of o ≡ Verdict.Lost → ⊥)
        → (is_read (verdict_of o) ≡ true) × (kept.pipe_faults ≡ 0) }
{}
