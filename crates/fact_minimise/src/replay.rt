use text_kit::{NoMemory, Rows};

/// Something that tells of a list of facts whether they suffice.
pub trait Replay {
    ghost use Rattle.std.specs.Prelude.{◌↔◌, List, ℕ, IfOk, MatchBool};

    /// Which lists of facts suffice.
    ghost finds: { Self → List ℕ → Type 0 };

    /// Whether these facts suffice. It leaves unchanged which lists do.
    fn replay(&mut self, facts: &Rows<u32>) -> Result<bool, NoMemory>
        ensures answer { IfOk result (λ found. MatchBool found (finds self.old facts.now) (finds self.old facts.now → ⊥)) }
        ensures same { (facts : List ℕ) → (finds self.new facts ↔ finds self.old facts) };
}
