ghost use Rattle.std.specs.Prelude.{◌≡◌, ℕ, List, Option, Some, None, true, length};
ghost use Rattle.race_core.specs.declared.outcome.Outcome.{Outcome};
ghost use Rattle.race_core.specs.declared.slot.Kept.{Kept};
ghost use Rattle.race_core.specs.declared.event.Event.{Event};
ghost use Rattle.race_core.specs.Steps.{IsLegal};
ghost use Rattle.race_core.specs.Verdicts.{verdict_of};
ghost use Rattle.race_core.specs.Histories.{id_of};
ghost use Rattle.race_board.specs.Drains.{most_bytes, AreFirst};
ghost use Rattle.race_board.specs.Ends.{Terms, Right, is_read};

use race_outside::Work;

/// A slot whose verdict is for what its child printed, and whose pipe didn't fail, kept the first 4 MiB
/// and one byte of what its own child gives, or all of it where that is less.
pub fn kept_bytes_are_the_first<W: Work>()
    ensures { (terms : Terms) (until : Option ℕ) (k : ℕ) (kept : Kept) (o : Outcome W.Proof) (es : List Event)
        → Right (W.answers terms.key) terms until k kept o es → is_read (verdict_of o) ≡ true → kept.pipe_faults ≡ 0
        → (i : ℕ) × (id_of terms.first.starts es k ≡ Some i) × AreFirst most_bytes (terms.children i).whole kept.bytes }
{}

/// In a race of one slot no pipe of another is ever kept in the place of the slot's own.
pub fn one_slot_is_never_lost<W: Work>()
    ensures { (terms : Terms) (until : Option ℕ) (k : ℕ) (kept : Kept) (o : Outcome W.Proof) (es : List Event)
        → length terms.orders ≡ 1 → IsLegal (length terms.orders) until es → Right (W.answers terms.key) terms until k kept o es → kept.stray ≡ None }
{}
