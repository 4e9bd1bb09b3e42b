ghost use Rattle.std.specs.Prelude.{◌≡◌, ◌≤◌, ℕ, List, length, IfOk};
ghost use Rattle.fol_prover.specs.Proving.{Proves};
ghost use Rattle.fol_prover.specs.Replies.{Heard, IsAsked, Reply, most_bytes};
ghost use Rattle.fol_prover.specs.Texts.{error_text};
ghost use Rattle.fol_prover.specs.inner.Reading.{IsInput, heard};

use crate::child_end::{ChildEnd, end_with};
use crate::input::{Input, MOST, read_input};
use crate::proving::prove_bytes;
use crate::words::Asked;
use race_outside::Pipe;
use std::alloc::Global;
use text_kit::NoMemory;

/// The answer where the input can't be read.
fn refused(alloc: Global) -> Result<ChildEnd, NoMemory>
    ensures { IfOk result (λ e. (e.status ≡ 3) × (e.text ≡ error_text)) }
{
    end_with(alloc, 3, b"% SZS status Error\n")
}

/// Answers the bytes of the input, which are at most 64 MiB.
fn answer_bytes(alloc: Global, asked: Asked, bytes: &[u8]) -> Result<ChildEnd, NoMemory>
    requires { 1 ≤ asked.age }
    ensures { length bytes.now ≤ most_bytes → IfOk result (λ e. Proves bytes.now asked.budget asked.age e.status e.text) }
{
    if bytes.len() > MOST {
        return Err(NoMemory);
    }
    prove_bytes(alloc, bytes, asked.budget, asked.age)
}

/// Answers what the input gave.
fn answer_input(alloc: Global, asked: Asked, input: Input) -> Result<ChildEnd, NoMemory>
    requires { 1 ≤ asked.age }
    ensures { (words : List (List ℕ)) (i : Heard) → IsAsked words asked.budget asked.age → IsInput i input → IfOk result (λ e. Reply words i e.status e.text) }
{
    match input {
        Input::Whole(bytes) => answer_bytes(alloc, asked, bytes.as_slice()),
        Input::TooLong => refused(alloc),
        Input::Failed => refused(alloc),
    }
}

/// Reads the input and answers it.
pub(crate) fn reply_to<P: Pipe>(
    alloc: Global,
    asked: Asked,
    input: &mut P,
) -> Result<ChildEnd, NoMemory>
    requires { 1 ≤ asked.age }
    ensures { (words : List (List ℕ)) → IsAsked words asked.budget asked.age → IfOk result (λ e. Reply words (heard (P.left input.old) (P.faults input.old) (P.faults input.new)) e.status e.text) }
{
    let given = read_input(alloc, input)?;
    answer_input(alloc, asked, given)
}
