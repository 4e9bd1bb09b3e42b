ghost use Rattle.std.specs.Prelude.{◌≡◌, ◌==◌, ◌&&◌, ◌||◌, not, IsTrue, IfOk};
ghost use Rattle.std.specs.List.{list_any};
ghost use Rattle.fact_minimise.specs.Minimal.{IsMinimal};

use crate::{MinTurn, Minimise, Replay};
use std::alloc::Global;
use std::test::Fail;
use text_kit::{NoMemory, Rows};

fn has(facts: &Rows<u32>, fact: u32) -> bool
    ensures { result ≡ list_any (λ x. x == fact) facts.now }
{
    facts.as_slice().iter().any(|x| *x == fact)
}

// Needs the fact 3 alone.
#[derive(Drop)]
struct NeedsThree;

impl Replay for NeedsThree {
    ghost finds = { λ _ facts. IsTrue (list_any (λ x. x == 3) facts) };

    fn replay(&mut self, facts: &Rows<u32>) -> Result<bool, NoMemory> {
        Ok(has(facts, 3))
    }
}

// Needs the facts 2 and 3. The fact 1 keeps it from finding them, unless the fact 0 is there.
#[derive(Drop)]
struct NeedsTwoAndThree;

impl Replay for NeedsTwoAndThree {
    ghost finds = { λ _ facts. IsTrue (list_any (λ x. x == 2) facts && list_any (λ x. x == 3) facts && (list_any (λ x. x == 0) facts || not (list_any (λ x. x == 1) facts))) };

    fn replay(&mut self, facts: &Rows<u32>) -> Result<bool, NoMemory> {
        Ok(has(facts, 2) && has(facts, 3) && (has(facts, 0) || !has(facts, 1)))
    }
}

// Minimises facts that the replay finds.
fn minimised<R: Replay>(replay: &mut R, facts: Rows<u32>) -> Result<Minimise, NoMemory>
    requires { R.finds replay.old facts }
    ensures { IfOk result (λ m. IsMinimal (R.finds replay.old) m.kept) }
{
    let mut minimise = Minimise::begin(facts);
    loop {
        match minimise.turn(replay) {
            MinTurn::More => {}
            MinTurn::Done => return Ok(minimise),
            MinTurn::NoMemory => return Err(NoMemory),
        }
    }
}

fn rows(alloc: Global, facts: &[u32]) -> Result<Rows<u32>, Fail> {
    Ok(Rows::from_vec(Vec::from_slice(alloc, facts)?))
}

#[test]
fn spares_what_it_can(rt: HostRuntime) -> Result<(), Fail> {
    let facts = rows(rt.alloc(), &[1, 3])?;
    assert!(rt; NeedsThree.replay(&facts)?);
    let kept = minimised(&mut NeedsThree, facts)?;
    assert_eq!(rt; kept.kept().as_slice(), [3].as_slice());

    let mut replay = NeedsTwoAndThree;
    assert!(rt; !replay.replay(&rows(rt.alloc(), &[1, 2, 3])?)?);
    let facts = rows(rt.alloc(), &[0, 1, 2, 3])?;
    assert!(rt; replay.replay(&facts)?);
    let kept = minimised(&mut replay, facts)?;
    assert_eq!(rt; kept.kept().as_slice(), [2, 3].as_slice());
    Ok(())
}
