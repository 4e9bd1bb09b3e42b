ghost use Rattle.std.specs.Prelude.{◌≡◌, ◌≢◌, ℕ, List, Option, None};
ghost use Rattle.race_core.specs.declared.outcome.Outcome.{Outcome};
ghost use Rattle.race_core.specs.declared.slot.Kept.{Kept};
ghost use Rattle.race_core.specs.declared.event.Event.{Event};
ghost use Rattle.race_board.specs.Ends.{Terms, Right};

use race_outside::Work;

/// A slot that keeps what was read of its own pipe, or nothing, isn't lost.
pub fn unlost_slots_are_not_lost<W: Work>()
    ensures { (terms : Terms) (until : Option ℕ) (k : ℕ) (kept : Kept) (o : Outcome W.Proof) (es : List Event)
        → Right (W.answers terms.key) terms until k kept o es → kept.stray ≡ None → (i : ℕ) → o ≢ Outcome.Lost i }
{}
