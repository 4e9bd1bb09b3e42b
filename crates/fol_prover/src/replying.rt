ghost use Rattle.std.specs.Prelude.{map, string_bytes};
ghost use Rattle.fol_prover.specs.Replies.{Answered};
ghost use Rattle.fol_prover.specs.inner.Reading.{heard};
ghost use Rattle.fol_prover.specs.inner.Sinking.{IsPut, told_by};

use crate::answering::reply_to;
use crate::words::read_asked;
use race_outside::{Pipe, Sink};
use std::alloc::Global;

/// Puts a whole text and gives its status, or 5 where the output fails.
fn put_text<S: Sink>(out: &mut S, text: &[u8], status: u8) -> u8
    ensures { IsPut (told_by (S.taken out.old) (S.taken out.new) (S.faults out.old) (S.faults out.new)) text.now status result }
{
    match out.put(text) {
        Ok(()) => status,
        Err(_) => 5,
    }
}

/// All that the child does: reads a problem from its input, and puts what came of it.
///
/// The words are `--budget B --age A`, B from 1 to 1,000,000 picks, A from 1 to 1,000; others are status 2, without a text. Status 0
/// comes with a proof, 1 where none was found or a statement has above 1,024 clauses, 3 where the input failed or is above 64 MiB,
/// 4 where it is no problem, 5 where the output failed, 6 where memory ran out. The text is put whole.
pub fn child<P: Pipe, S: Sink>(alloc: Global, words: &[String], input: &mut P, out: &mut S) -> u8
    ensures { Answered (map string_bytes words.now) (heard (P.left input.old) (P.faults input.old) (P.faults input.new)) (told_by (S.taken out.old) (S.taken out.new) (S.faults out.old) (S.faults out.new)) result }
{
    match read_asked(words) {
        None => 2,
        Some(asked) => match reply_to(alloc, asked, input) {
            Ok(end) => put_text(out, end.text.as_slice(), end.status),
            Err(_) => put_text(out, b"% SZS status MemoryOut\n", 6),
        },
    }
}
