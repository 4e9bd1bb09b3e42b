ghost use Rattle.std.specs.Prelude.{◌≡◌, ◌+◌, ◌≤◌, ◌<◌, ◌^◌, ℕ, List, length, All, MatchResult};
ghost use Rattle.tstp_read.specs.Lines.{bytes_of};
ghost use Rattle.tstp_read.specs.Tokens.{IsWithin};
ghost use Rattle.tstp_read.specs.inner.Leaves.{Found, FailsToFind};
ghost use Rattle.tstp_read.specs.inner.Refusals.{FitsCut, FitsRead, cut_fault, read_fault};
ghost use Rattle.tstp_read.specs.Used.{Answer, Leaves, IsAnswer, IsRefusedAs, TokensSay, TokensFail, BytesSay, BytesFail};

use crate::lines::{Span, has_succeeded, proof_part};
use crate::reach::leaves;
use crate::statements::{Entry, ReadFault, read};
use crate::tokens::{CutFault, Token, tokens};
use std::alloc::Global;
use text_kit::{Bytes, NoMemory, Rows};

/// Why an output gives no names.
#[derive(Clone, Copy, Debug, Drop, PartialEq, Eq)]
pub enum UsedFault {
    /// No line tells a status, or the first one that does tells another than that of a proof.
    NoStatus,
    /// No proof stands between its two lines, or none of its statements is `$false`.
    NoProof,
    /// The proof is no list of statements. The place counts from the first byte of the output, and names the
    /// first byte that is part of no token, or else the first token at which no such list goes on.
    BadText { at: u64 },
    /// Memory ran out.
    NoMemory,
}

fn of_cut_fault(from: usize, e: CutFault) -> UsedFault
    requires { FitsCut from e }
    ensures { result ≡ cut_fault from e }
{
    match e {
        CutFault::BadByte { at } => UsedFault::BadText {
            at: (from + at) as u64,
        },
        CutFault::NoMemory => UsedFault::NoMemory,
    }
}

fn of_read_fault(from: usize, e: ReadFault) -> UsedFault
    requires { FitsRead from e }
    ensures { result ≡ read_fault from e }
{
    match e {
        ReadFault::Stop { at } => UsedFault::BadText {
            at: (from + at) as u64,
        },
        ReadFault::NoMemory => UsedFault::NoMemory,
    }
}

fn used_by(alloc: Global, entries: Rows<Entry>) -> Result<Rows<Bytes>, UsedFault>
    ensures { MatchResult result (Found entries) (FailsToFind entries) }
{
    match leaves(alloc, entries) {
        Ok(Some(names)) => Ok(names),
        Ok(None) => Err(UsedFault::NoProof),
        Err(NoMemory) => Err(UsedFault::NoMemory),
    }
}

fn used_of(
    alloc: Global,
    from: usize,
    bytes: &[u8],
    toks: &[Token],
) -> Result<Rows<Bytes>, UsedFault>
    requires within { All (IsWithin (length bytes.now)) toks.now }
    requires fits { from + length bytes.now < 2 ^ 64 }
    ensures { MatchResult result (λ names. TokensSay from bytes.now toks.now (Leaves names)) (λ e. TokensFail from bytes.now toks.now e) }
{
    match read(alloc, bytes, toks) {
        Err(e) => Err(of_read_fault(from, e)),
        Ok(entries) => used_by(alloc, entries),
    }
}

fn used_in(alloc: Global, from: usize, bytes: &[u8]) -> Result<Rows<Bytes>, UsedFault>
    requires { from + length bytes.now < 2 ^ 64 }
    ensures { MatchResult result (λ names. BytesSay from bytes.now (Leaves names)) (λ e. BytesFail from bytes.now e) }
{
    match tokens(alloc, bytes) {
        Err(e) => Err(of_cut_fault(from, e)),
        Ok(toks) => used_of(alloc, from, bytes, toks.as_slice()),
    }
}

fn part_bytes(text: &[u8], part: Span) -> &[u8]
    requires { (part.from ≤ part.to) × (part.to ≤ length text.now) }
    ensures { result.now ≡ bytes_of text.now part }
{
    &text[part.from..part.to]
}

/// The names of the leaves that the proof in an output rests on, ascending by their bytes without repeats.
///
/// An earlier fault comes before a later one: the status, the two lines round the proof, its first bad byte, its
/// first token that fits no list of statements, the missing `$false`.
pub fn used(alloc: Global, text: &[u8]) -> Result<Rows<Bytes>, UsedFault>
    // What is answered is the one answer that the bytes have.
    ensures { MatchResult result (λ names. IsAnswer text.now (Leaves names)) (IsRefusedAs text.now) }
{
    if !has_succeeded(text) {
        return Err(UsedFault::NoStatus);
    }
    match proof_part(text) {
        None => Err(UsedFault::NoProof),
        Some(part) => used_in(alloc, part.from, part_bytes(text, part)),
    }
}

/// Each output has one answer, and none has two.
pub fn one_answer()
    ensures some { (text : List ℕ) → (a : Answer) × IsAnswer text a }
    ensures one { (text : List ℕ) (a b : Answer) → IsAnswer text a → IsAnswer text b → a ≡ b }
{}
