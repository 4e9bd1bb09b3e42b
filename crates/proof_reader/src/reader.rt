ghost use Rattle.std.specs.Prelude.{◌<◌, length, IfOk, MatchResult};
ghost use Rattle.proof_syntax.specs.Reading.{Answer, IsAnswer, IsReadAs, Tells};
ghost use Rattle.proof_reader.specs.inner.Body.{GotGoal, BodyReads, FailsBody};

use crate::lookup::lookup;
use crate::start::body_of;
use crate::steps::read_steps;
use crate::words::behind_goal;
use proof_syntax::{PartFault, ProofFault, ProofFile};
use proof_terms::{sign, word};
use std::alloc::Global;
use text_kit::NoMemory;
use theory_reader::Theory;

/// The goal of the first line of a body, and what stands behind that line.
fn goal_line<'a>(theory: &Theory, body: &'a [u8]) -> Result<(u32, &'a [u8]), PartFault>
    ensures read { MatchResult result (λ r. GotGoal theory.now body.now r.0 r.1.now) (λ e. FailsBody theory.now body.now e) }
    ensures within { IfOk result (λ r. r.0 < length theory.now.goals) }
{
    match behind_goal(body) {
        Err(e) => Err(e),
        Ok(spaced) => match sign(b' ', spaced) {
            None => Err(PartFault::Stops(spaced.len())),
            Some(named) => match word(named) {
                None => Err(PartFault::Stops(named.len())),
                Some((name, end)) => match theory.goal_named(name) {
                    None => Err(PartFault::GoesBeyond(named.len())),
                    Some(goal) => match sign(b'\n', end) {
                        None => Err(PartFault::Stops(end.len())),
                        Some(rest) => Ok((goal, rest)),
                    },
                },
            },
        },
    }
}

/// What stands behind the first line of a proof.
fn read_body(alloc: Global, theory: &Theory, body: &[u8]) -> Result<ProofFile, PartFault>
    ensures read { MatchResult result (λ file. BodyReads theory.now body.now file) (λ e. FailsBody theory.now body.now e) }
    ensures goal { IfOk result (λ file. file.goal < length theory.now.goals) }
{
    match goal_line(theory, body) {
        Err(e) => Err(e),
        Ok((goal, rest)) => match lookup(alloc, theory, goal) {
            Err(NoMemory) => Err(PartFault::NoMemory),
            Ok(names) => match read_steps(alloc, &names, rest) {
                Err(e) => Err(e),
                Ok(steps) => Ok(ProofFile { goal, steps }),
            },
        },
    }
}

fn read_text(alloc: Global, theory: &Theory, text: &[u8]) -> Result<ProofFile, ProofFault>
    ensures read { IsReadAs theory.now text.now result }
    ensures goal { IfOk result (λ file. file.goal < length theory.now.goals) }
{
    match body_of(text) {
        None => Err(ProofFault::At {
            at: text.len() as u64,
        }),
        Some(body) => match read_body(alloc, theory, body) {
            Ok(file) => Ok(file),
            Err(PartFault::Stops(left)) => Err(ProofFault::At {
                at: (text.len() - left) as u64,
            }),
            Err(PartFault::GoesBeyond(left)) => Err(ProofFault::At {
                at: (text.len() - left) as u64,
            }),
            Err(PartFault::NoMemory) => Err(ProofFault::NoMemory),
        },
    }
}

/// Reads a proof text over a theory.
///
/// Everything before the first line `sledge proof 1` is passed over. A fault names the first byte at which no text goes
/// on, the first byte of a name that isn't declared, or the term that opens nesting 4,097; where no proof begins, the
/// text's length.
pub fn read_proof(alloc: Global, theory: &Theory, text: &[u8]) -> Result<ProofFile, ProofFault>
    // What is read is derivable, and a fault is at its place.
    ensures read { IsReadAs theory.now text.now result }
    // The answer that the text has is given, unless memory runs out.
    ensures only { (a : Answer) → IsAnswer theory.now text.now a → Tells a result }
    ensures goal { IfOk result (λ file. file.goal < length theory.now.goals) }
{
    read_text(alloc, theory, text)
}
