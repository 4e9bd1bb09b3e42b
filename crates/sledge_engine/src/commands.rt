ghost use Rattle.std.specs.Prelude.{◌≡◌, [], map, string_bytes, IfOk};
ghost use Rattle.sledge_words.specs.Lines.{IsLine};
ghost use Rattle.sledge_engine.specs.Replies.{CommandReply, Reply};
ghost use Rattle.sledge_engine.specs.Words.{arguments as arguments_of};
ghost use Rattle.sledge_engine.specs.inner.Fetches.{outside};

use crate::check::answer_check;
use crate::filter::answer_filter;
use crate::generate::answer_gen;
use crate::metis::answer_metis;
use crate::problem::answer_problem;
use crate::texts::put_usage;
use crate::words::{arguments, check_line, metis_line, slice_line};
use race_outside::Shelf;
use sledge_words::{Command, Line, WordsFault, read_words};
use std::alloc::Global;
use text_kit::{Bytes, NoMemory};

/// Answers the line that the words are.
pub(crate) fn answer_line<H: Shelf>(
    alloc: Global,
    words: &[String],
    line: &Line,
    shelf: &mut H,
    text: &mut Bytes,
) -> Result<u8, NoMemory>
    requires line { IsLine (map string_bytes words.now) line.now }
    requires text { text.old ≡ [] }
    ensures { IfOk result (λ status. CommandReply line.now.command line.now (arguments_of (map string_bytes words.now) line.now) (outside (H.held shelf.old) (H.sure shelf.old) (H.faults shelf.old) (H.faults shelf.new)) status text.new) }
{
    let arguments = arguments(alloc, words, line)?;
    let words = arguments.as_slice();
    match line.command {
        Command::Metis => answer_metis(alloc, metis_line(line, words), shelf, text),
        Command::Check => answer_check(alloc, check_line(words), shelf, text),
        Command::Filter => answer_filter(alloc, slice_line(line, words), shelf, text),
        Command::Problem => answer_problem(alloc, slice_line(line, words), shelf, text),
        Command::Gen => answer_gen(alloc, line.number, text),
        Command::Prove => put_usage(text),
        Command::Drill => put_usage(text),
        Command::Model => put_usage(text),
        Command::Refute => put_usage(text),
        Command::Chain => put_usage(text),
        Command::Batch => put_usage(text),
    }
}

/// Answers words: puts the text and gives the status.
pub(crate) fn answer_words<H: Shelf>(
    alloc: Global,
    words: &[String],
    shelf: &mut H,
    text: &mut Bytes,
) -> Result<u8, NoMemory>
    requires { text.old ≡ [] }
    ensures { IfOk result (λ status. Reply (map string_bytes words.now) (outside (H.held shelf.old) (H.sure shelf.old) (H.faults shelf.old) (H.faults shelf.new)) status text.new) }
{
    match read_words(alloc, words) {
        Ok(line) => answer_line(alloc, words, &line, shelf, text),
        Err(WordsFault::Usage) => put_usage(text),
        Err(WordsFault::NoMemory) => Err(NoMemory),
    }
}
