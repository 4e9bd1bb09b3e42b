ghost use Rattle.std.specs.Prelude.{◌≡◌, ◌+◌, ◌≤◌, ◌<◌, ◌↔◌, ℕ, true, false, List, [], ◌∷◌, ◌++◌, Option, Some, None, IsSome, MatchBool, Contains, length, slice_get};
ghost use Rattle.race_core.specs.declared.race.Race.{Race};
ghost use Rattle.race_core.specs.declared.outcome.Verdict.{Verdict};
ghost use Rattle.race_core.specs.declared.slot.SlotState.{SlotState};
ghost use Rattle.race_core.specs.declared.event.Event.{Event};
ghost use Rattle.race_core.specs.Steps.{after, IsLegal};
ghost use Rattle.race_core.specs.Histories.{events_of, HasPassed, PassedOnce, PassesOnce, first_proved, expiries, has_expired, WasLaunched, WasReaped, launched, id_of};

/// What a slot's events are in a legal history: those of its state, so each of its states was passed
/// once where it is settled, and the events are a beginning of such a way where it isn't.
pub fn slots_pass_in_order()
    ensures state { (n : ℕ) (until : Option ℕ) (es : List Event) (r : Race) → after n until es ≡ Some r
        → (k : ℕ) (s : SlotState) → slice_get r.slots k ≡ Some s → HasPassed k s (events_of k es) }
    ensures outside { (n : ℕ) (until : Option ℕ) (es : List Event) → IsLegal n until es
        → (k : ℕ) → n ≤ k → events_of k es ≡ [] }
    ensures begun { (n : ℕ) (until : Option ℕ) (es : List Event) → IsLegal n until es → (k : ℕ) → PassesOnce es k }
{}

/// Where every slot is settled, each has passed its states once.
pub fn settled_slots_passed_once()
    ensures { (n : ℕ) (until : Option ℕ) (es : List Event) (r : Race) → after n until es ≡ Some r
        → ((k : ℕ) → k < n → (v : Verdict) × (slice_get r.slots k ≡ Some (SlotState.Settled v)))
        → (k : ℕ) → k < n → PassedOnce es k }
{}

/// The winner is the slot of the first accepted proof.
pub fn winner_is_first_proved()
    ensures { (n : ℕ) (until : Option ℕ) (es : List Event) (r : Race) → after n until es ≡ Some r
        → r.winner ≡ first_proved es }
{}

/// The limit of time passes at most once, not before it, and never behind a win.
pub fn limit_passes_once()
    ensures late { (n : ℕ) (until : Option ℕ) (es : List Event) (r : Race) → after n until es ≡ Some r
        → MatchBool r.late ((m : ℕ) × (expiries es ≡ m ∷ [])) (expiries es ≡ []) }
    ensures due { (n : ℕ) (until : Option ℕ) (es rest : List Event) (m : ℕ) → IsLegal n until (es ++ Event.Expire m ∷ rest)
        → (limit : ℕ) × (until ≡ Some limit) × (limit ≤ m) }
    ensures win { (n : ℕ) (until : Option ℕ) (es rest : List Event) (m : ℕ) → IsLegal n until (es ++ Event.Expire m ∷ rest)
        → first_proved es ≡ None }
{}

/// A slot that ran as the limit of time passed is overdue, and late once it is reaped; no other is.
pub fn overdue_where_the_limit_passed()
    ensures running { (n : ℕ) (until : Option ℕ) (es : List Event) (r : Race) → after n until es ≡ Some r
        → (k : ℕ) → slice_get r.slots k ≡ Some SlotState.Running → WasLaunched k false es }
    ensures overdue { (n : ℕ) (until : Option ℕ) (es : List Event) (r : Race) → after n until es ≡ Some r
        → (k : ℕ) → slice_get r.slots k ≡ Some SlotState.Overdue → WasLaunched k true es }
    ensures reaped { (n : ℕ) (until : Option ℕ) (es : List Event) (r : Race) → after n until es ≡ Some r
        → (k : ℕ) → slice_get r.slots k ≡ Some SlotState.Reaped → WasReaped k false es }
    ensures reaped_late { (n : ℕ) (until : Option ℕ) (es : List Event) (r : Race) → after n until es ≡ Some r
        → (k : ℕ) → slice_get r.slots k ≡ Some SlotState.ReapedLate → WasReaped k true es }
{}

/// A slot times out only where the limit of time passed between its launch and its reap, or where it is
/// skipped behind that without a win.
pub fn timed_out_behind_the_limit()
    ensures settled { (n : ℕ) (until : Option ℕ) (es rest : List Event) (k : ℕ)
        → IsLegal n until (es ++ Event.Settle k Verdict.TimedOut ∷ rest) → WasReaped k true es }
    ensures skipped { (n : ℕ) (until : Option ℕ) (es rest : List Event) (k : ℕ)
        → IsLegal n until (es ++ Event.Skip k ∷ rest) → first_proved es ≡ None → has_expired es ≡ true }
{}

/// A slot is cancelled only behind a win.
pub fn cancelled_follow_a_win()
    ensures event { (n : ℕ) (until : Option ℕ) (es rest : List Event) (k : ℕ)
        → IsLegal n until (es ++ Event.Settle k Verdict.Cancelled ∷ rest) → IsSome (first_proved es) }
    ensures state { (n : ℕ) (until : Option ℕ) (es : List Event) (r : Race) → after n until es ≡ Some r
        → (k : ℕ) → slice_get r.slots k ≡ Some (SlotState.Settled Verdict.Cancelled) → IsSome (first_proved es) }
{}

/// What is settled by a verdict was launched and then reaped.
pub fn reaped_before_settled()
    ensures { (n : ℕ) (until : Option ℕ) (es rest : List Event) (k : ℕ) (v : Verdict)
        → IsLegal n until (es ++ Event.Settle k v ∷ rest)
        → events_of k es ≡ Event.Launch k ∷ Event.Reap k ∷ [] }
{}

/// A slot has an id exactly where it was launched: the first id and the number of launches before its
/// own. No two slots have the same, and there are at most as many ids as slots.
pub fn ids_follow_launches()
    ensures given { (first : ℕ) (es : List Event) (k : ℕ)
        → IsSome (id_of first es k) ↔ Contains es (Event.Launch k) }
    ensures value { (n : ℕ) (until : Option ℕ) (es rest : List Event) (first k : ℕ)
        → IsLegal n until (es ++ Event.Launch k ∷ rest)
        → id_of first (es ++ Event.Launch k ∷ rest) k ≡ Some (first + length (launched es)) }
    ensures unique { (first : ℕ) (es : List Event) (j k i : ℕ)
        → id_of first es j ≡ Some i → id_of first es k ≡ Some i → j ≡ k }
    ensures range { (n : ℕ) (until : Option ℕ) (es : List Event) → IsLegal n until es
        → (first k i : ℕ) → id_of first es k ≡ Some i → (first ≤ i) × (i < first + n) }
{}
