ghost use Rattle.std.specs.Prelude.{◌<◌, length, IfOk, OnOk};
ghost use Rattle.slot_work.specs.Jobs.{IsJobOf};

use race_core::Outcome;
use race_outside::{Work, WorkTurn};
use slot_work::{Job, Proven, Replayed, goal_fits, replay, visible};
use std::alloc::Global;
use std::test::Fail;
use text_kit::{Bytes, NoMemory};
use theory_reader::{Theory, read};

/// The theory of a text.
fn theory_of(alloc: Global, text: &[u8]) -> Result<Theory, Fail> {
    if text.len() >= 1_000_000 {
        return Err(Fail::from(NoMemory));
    }
    match read(alloc, text) {
        Ok(theory) => Ok(theory),
        Err(_) => Err(Fail::from(NoMemory)),
    }
}

/// The job for the theory's first goal.
fn job_of<'t>(alloc: Global, theory: &'t Theory, budget: u32) -> Result<Job<'t>, Fail>
    ensures goal { OnOk result (0 < length theory.now.goals) }
    ensures job { IfOk result (IsJobOf theory.now 0 budget) }
{
    if theory.goals.len() == 0 {
        return Err(Fail::from(NoMemory));
    }
    if !goal_fits(alloc, theory, 0)? {
        return Err(Fail::from(NoMemory));
    }
    let facts = visible(alloc, theory, 0)?;
    Ok(Job::begin(alloc, theory, 0, facts, budget)?)
}

/// The replay of all facts before the theory's first goal.
fn replay_all(alloc: Global, text: &[u8], budget: u32) -> Result<Replayed, Fail> {
    let theory = theory_of(alloc, text)?;
    let job = job_of(alloc, &theory, budget)?;
    let facts = visible(alloc, &theory, 0)?;
    Ok(replay(alloc, &job, &facts)?)
}

/// Whether all facts were replayed to a proof from these.
fn proves(
    alloc: Global,
    text: &[u8],
    budget: u32,
    names: &[u32],
    steps: usize,
) -> Result<bool, Fail> {
    match replay_all(alloc, text, budget)? {
        Replayed::Proved(proof) => {
            Ok(proof.names.as_slice() == names && proof.steps.len() >= steps)
        }
        Replayed::Saturated => Ok(false),
        Replayed::Spent => Ok(false),
    }
}

const TB: &[u8] = b"const p : bool; const q : bool; fact f1 : p; fact f2 : ~p | q; goal g : q;";

#[test]
fn facts_are_replayed(rt: HostRuntime) -> Result<(), Fail> {
    let alloc = rt.alloc();
    assert!(rt; proves(alloc, TB, 4, &[0, 1], 5)?);
    let excluded = b"const p : bool; goal g : p | ~p;";
    assert!(rt; proves(alloc, excluded, 2_000, &[], 3)?);
    let map =
        b"type nat; const zero : nat; const suc : nat -> nat; const map : (nat -> nat) -> nat -> nat;
        fact map_def : !f:nat -> nat. !x:nat. map f x = f x; fact other : suc = suc;
        goal g : map (\\y:nat. suc y) zero = suc zero;";
    assert!(rt; proves(alloc, map, 2_000, &[0], 10)?);
    Ok(())
}

#[test]
fn ends_are_told(rt: HostRuntime) -> Result<(), Fail> {
    let alloc = rt.alloc();
    assert!(rt; matches!(replay_all(alloc, TB, 3)?, Replayed::Spent));
    let units =
        b"type unit; type nat; const a : nat; const b : nat; fact one : !x:unit. !y:unit. x = y; goal g : a = b;";
    assert!(rt; matches!(replay_all(alloc, units, 2_000)?, Replayed::Saturated));
    Ok(())
}

/// The outcome of the whole work on some bytes.
fn worked(alloc: Global, job: &Job, bytes: &Bytes) -> Outcome<Proven> {
    let Ok(mut task) = job.begin(alloc, bytes) else {
        return Outcome::NoMemory;
    };
    loop {
        match job.turn(&mut task) {
            WorkTurn::More => {}
            WorkTurn::Done(outcome) => return outcome,
        }
    }
}

/// The outcome of a child's bytes for the goal of `TB`.
fn outcome_of(alloc: Global, bytes: &[u8]) -> Result<Outcome<Proven>, Fail> {
    let theory = theory_of(alloc, TB)?;
    let job = job_of(alloc, &theory, 2_000)?;
    let bytes = Bytes::from_slice(alloc, bytes)?;
    Ok(worked(alloc, &job, &bytes))
}

const TEXT: &[u8] = b"# SZS status Theorem
# SZS output start CNFRefutation
fof(f_f2, axiom, (~p|q), file('problem', f_f2)).
fof(f_f1, axiom, (p), file('problem', 'f_f1')).
fof(other, axiom, (r), file('problem', f_other)).
cnf(c5, negated_conjecture, ($false), inference(cn,[status(thm)],[f_f2, f_f1, other])).
# SZS output end CNFRefutation
";

#[test]
fn bytes_have_outcomes(rt: HostRuntime) -> Result<(), Fail> {
    let alloc = rt.alloc();
    let proved = match outcome_of(alloc, TEXT)? {
        Outcome::Proved(proof) => proof.names.as_slice() == [0, 1].as_slice(),
        _ => false,
    };
    assert!(rt; proved);
    assert!(rt;
        matches!(
            outcome_of(alloc, b"% SZS status GaveUp\n")?,
            Outcome::NoStatus
        )
    );
    Ok(())
}
