ghost use Rattle.std.specs.Prelude.{◌≡◌, ◌↔◌, ℕ, List, true, IfOk, MatchBool};
ghost use Rattle.fo_infer.specs.Inferences.{tagged_position};
ghost use Rattle.fo_infer.specs.Lines.{Refutes};
ghost use Rattle.fact_minimise.specs.Sublists.{IsSublist};
ghost use Rattle.fact_minimise.specs.Minimal.{IsMinimal};
ghost use Rattle.goal_search.specs.Encoded.{inputs};
ghost use Rattle.goal_search.specs.Found.{was_found};
ghost use Rattle.slot_work.specs.inner.Finding.{Finds};

use fact_minimise::{MinTurn, Minimise, Replay};
use fo_infer::Refutation;
use goal_search::{ClauseFault, Ended, search};
use hol_terms::Env;
use std::alloc::Global;
use text_kit::{NoMemory, Rows};

/// Whether the search found a refutation.
fn found(ended: &Ended) -> bool
    ensures { result ≡ was_found ended.now }
{
    match ended {
        Ended::Found(_) => true,
        Ended::Saturated => false,
        Ended::Spent => false,
    }
}

/// What a search found.
fn refutation_of(ended: Ended) -> Refutation
    requires { was_found ended ≡ true }
    ensures { ended ≡ Ended.Found result }
{
    match ended {
        Ended::Found(r) => r,
        Ended::Saturated => unreachable!(),
        Ended::Spent => unreachable!(),
    }
}

/// Whether the search with these facts, all of which fit, finds a refutation.
pub fn finds(alloc: Global, env: &Env, facts: &[u32], budget: u32) -> Result<bool, NoMemory>
    ensures { IfOk result (λ b. MatchBool b (Finds env.now budget facts.now) (Finds env.now budget facts.now → ⊥)) }
{
    match search(alloc, env, facts, budget) {
        Ok(ended) => Ok(found(&ended)),
        Err(fault) => match fault {
            ClauseFault::TooLarge => Ok(false),
            ClauseFault::NoMemory => Err(NoMemory),
        },
    }
}

/// The refutation that the search with these facts finds.
pub fn refutation(
    alloc: Global,
    env: &Env,
    facts: &[u32],
    budget: u32,
) -> Result<Refutation, NoMemory>
    requires { Finds env.now budget facts.now }
    ensures { IfOk result (λ r. Refutes tagged_position (inputs env.now facts.now) r.lines) }
{
    match search(alloc, env, facts, budget) {
        Ok(ended) => Ok(refutation_of(ended)),
        Err(fault) => match fault {
            ClauseFault::TooLarge => unreachable!(),
            ClauseFault::NoMemory => Err(NoMemory),
        },
    }
}

/// The searches for a goal with lists of facts: what a minimiser replays.
#[derive(Drop)]
pub struct Searches<'e> {
    pub alloc: Global,
    pub env: &'e Env,
    pub budget: u32,
}

impl<'e> Replay for Searches<'e> {
    ghost use Rattle.slot_work.specs.inner.Finding.{Finds};

    ghost finds = { λ s facts. Finds s.env.now s.budget facts };

    fn replay(&mut self, facts: &Rows<u32>) -> Result<bool, NoMemory> {
        finds(self.alloc, self.env, facts.as_slice(), self.budget)
    }
}

/// The facts without those that can be spared.
pub fn minimised<R: Replay>(
    alloc: Global,
    replay: &mut R,
    facts: Rows<u32>,
) -> Result<Rows<u32>, NoMemory>
    requires { R.finds replay.old facts }
    ensures sublist { IfOk result (λ kept. IsSublist kept facts) }
    ensures minimal { IfOk result (λ kept. IsMinimal (R.finds replay.old) kept) }
{
    let mut minimise = Minimise::begin(facts);
    loop {
        match minimise.turn(replay) {
            MinTurn::More => {}
            MinTurn::Done => return minimise.kept().copy(alloc),
            MinTurn::NoMemory => return Err(NoMemory),
        }
    }
}
