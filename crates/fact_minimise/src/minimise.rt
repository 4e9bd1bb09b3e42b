ghost use Rattle.std.specs.Prelude.{◌≡◌, ◌↔◌, ℕ, List, ◌+◌, ◌*◌, ◌≤◌, ◌<◌, [], length, if◌then◌else◌};
ghost use Rattle.fact_minimise.specs.Stages.{is_over};

use crate::replay::Replay;
use crate::stage::Stage;
use crate::turn::MinTurn;
use std::marker::Model;
use text_kit::{NoMemory, Rows};

/// A list of facts that is made shorter, turn by turn, as long as the replay finds it.
///
/// First it tries to leave out blocks: halves of the list, then quarters, down to two facts, as delta
/// debugging does (Zeller and Hildebrandt, "Simplifying and isolating failure-inducing input", 2002).
/// Then it goes round the single facts until each was tried since the last one was dropped. More facts
/// may hinder a replay, so a fact that was needed may be spared once another one is gone.
#[derive(Debug, Drop)]
pub struct Minimise {
    kept: Rows<u32>,
    stage: Stage,
}

impl Model for Minimise {
    ghost use Rattle.std.specs.Prelude.{length};
    ghost use Rattle.fact_minimise.specs.Progress.{Progress};
    ghost use Rattle.fact_minimise.specs.Stages.{progress_of, IsStageOf};

    ghost Value = { Progress };

    ghost view = { λ m. progress_of m.kept m.stage };

    ghost invariant = { λ m. IsStageOf (length m.kept) m.stage };
}

impl Minimise {
    ghost use Rattle.fact_minimise.specs.Sublists.{IsSublist};
    ghost use Rattle.fact_minimise.specs.Minimal.{IsMinimal};
    ghost use Rattle.fact_minimise.specs.Progress.{IsSound, Tries};

    /// Keeps all facts. It takes no memory.
    pub fn begin(facts: Rows<u32>) -> Minimise
        ensures kept { result.kept ≡ facts }
        ensures needed { result.needed ≡ [] }
        ensures left { result.left ≤ length facts * length facts + 2 * length facts }
    {
        let stage = Stage::first(facts.len());
        Minimise { kept: facts, stage }
    }

    /// Lends the kept facts.
    pub fn kept(&self) -> &Rows<u32>
        ensures { result.now ≡ self.now.kept }
    {
        &self.kept
    }

    /// Makes one replay of a shorter list and keeps that list where it is found. Where no fact is left
    /// that may be spared it makes none.
    pub fn turn<R: Replay>(&mut self, replay: &mut R) -> MinTurn
        requires { IsSound (R.finds replay.old) self.old }
        ensures relation { (facts : List ℕ) → (R.finds replay.new facts ↔ R.finds replay.old facts) }
        ensures sound { IsSound (R.finds replay.old) self.new }
        ensures sublist { IsSublist self.new.kept self.old.kept }
        ensures one_replay { result ≡ MinTurn.More → Tries (R.finds replay.old) self.old self.new }
        ensures unfinished { result ≡ MinTurn.More → length self.new.needed < length self.new.kept }
        ensures fewer { result ≡ MinTurn.More → self.new.left < self.old.left }
        ensures done { result ≡ MinTurn.Done → IsMinimal (R.finds replay.old) self.new.kept }
        ensures refused { result ≡ MinTurn.NoMemory → self.new ≡ self.old }
    {
        if self.stage.is_over(self.kept.len()) {
            return MinTurn::Done;
        }
        let Ok(shorter) = self.stage.shorter(&self.kept) else {
            return MinTurn::NoMemory;
        };
        match replay.replay(&shorter) {
            Ok(true) => {
                self.stage = self.stage.dropped(self.kept.len(), shorter.len());
                self.kept = shorter;
                answer(self.stage, self.kept.len())
            }
            Ok(false) => {
                self.stage = self.stage.kept(self.kept.len());
                answer(self.stage, self.kept.len())
            }
            Err(_) => MinTurn::NoMemory,
        }
    }
}

// What the turn that came to a stage answers.
fn answer(stage: Stage, facts: usize) -> MinTurn
    ensures { result ≡ (if is_over facts stage then MinTurn.Done else MinTurn.More) }
{
    if stage.is_over(facts) {
        MinTurn::Done
    } else {
        MinTurn::More
    }
}
