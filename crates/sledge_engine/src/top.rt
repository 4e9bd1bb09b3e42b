ghost use Rattle.std.specs.Prelude.{map, string_bytes};
ghost use Rattle.sledge_engine.specs.inner.Fetches.{outside};
ghost use Rattle.sledge_engine.specs.Replies.{Answered};
ghost use Rattle.sledge_engine.specs.inner.Sinking.{IsPut, told_by};

use crate::commands::answer_words;
use race_outside::{Shelf, Sink};
use std::alloc::Global;
use text_kit::Bytes;

/// Puts a whole text and gives its status, or 5 where the sink fails.
pub(crate) fn put_text<S: Sink>(out: &mut S, text: &[u8], status: u8) -> u8
    ensures { IsPut (told_by (S.taken out.old) (S.taken out.new) (S.faults out.old) (S.faults out.new)) text.now status result }
{
    match out.put(text) {
        Ok(()) => status,
        Err(_) => 5,
    }
}

/// Answers the words of a command that waits for nobody, and gives the exit status.
///
/// These are `metis THEORY GOAL FACT.. [--proof]`: whether the named facts prove the goal; `check THEORY PROOF`: whether a
/// proof file proves its goal; and `gen N`: a theory to try things on. Files are fetched from the shelf, and the text is put
/// into the sink, whole before its first byte.
pub fn answer<H: Shelf, S: Sink>(alloc: Global, words: &[String], shelf: &mut H, out: &mut S) -> u8
    // Each status has its cause, and the sink took the text that goes with it; want of memory alone is free.
    ensures answered { Answered (map string_bytes words.now) (outside (H.held shelf.old) (H.sure shelf.old) (H.faults shelf.old) (H.faults shelf.new)) (told_by (S.taken out.old) (S.taken out.new) (S.faults out.old) (S.faults out.new)) result }
{
    let mut text = Bytes::begin(alloc);
    match answer_words(alloc, words, shelf, &mut text) {
        Ok(status) => put_text(out, text.as_slice(), status),
        Err(_) => put_text(out, b"fault: memory\n", 6),
    }
}
