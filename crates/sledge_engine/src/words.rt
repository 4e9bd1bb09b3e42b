ghost use Rattle.std.specs.Prelude.{◌≡◌, ◌≤◌, [], get_or, length, map, string_bytes, IfOk};
ghost use Rattle.sledge_engine.specs.Words.{arguments as arguments_of, check_line as check_of, metis_line as metis_of, goal_line as goal_of, slice_line as slice_of};
ghost use Rattle.sledge_engine.specs.inner.Shown.{check_shown, goal_shown, metis_shown, slice_shown};

use sledge_words::Line;
use std::alloc::Global;
use text_kit::NoMemory;

/// What `metis` is asked, lent from the words.
#[derive(Clone, Copy, Drop)]
pub(crate) struct MetisLine<'w> {
    pub theory: &'w str,
    pub goal: &'w str,
    pub facts: &'w [&'w str],
    /// Picks of the search.
    pub budget: u32,
    /// Whether the proof is to be shown.
    pub shows: bool,
}

/// What `check` is asked, lent from the words.
#[derive(Clone, Copy, Drop)]
pub(crate) struct CheckLine<'w> {
    pub theory: &'w str,
    pub proof: &'w str,
}

/// What `filter` and `problem` are asked, lent from the words.
#[derive(Clone, Copy, Drop)]
pub(crate) struct SliceLine<'w> {
    pub theory: &'w str,
    pub goal: &'w str,
    /// The number of the slice.
    pub slice: u32,
}

/// What `prove` is asked, lent from the words.
#[derive(Clone, Copy, Drop)]
pub(crate) struct GoalLine<'w> {
    pub theory: &'w str,
    pub goal: &'w str,
}

/// The word at a place, where there is one.
fn word_at(words: &[String], place: u32) -> &str
    ensures { result.now ≡ get_or (map string_bytes words.now) place [] }
{
    match words.get(place as usize) {
        Some(word) => word.as_str(),
        None => "",
    }
}

/// The words that are the arguments of a line.
pub(crate) fn arguments<'w>(
    alloc: Global,
    words: &'w [String],
    line: &Line,
) -> Result<Vec<&'w str>, NoMemory>
    ensures { IfOk result (λ out. map (λ w. w.now) out.items ≡ arguments_of (map string_bytes words.now) line.now) }
{
    let mut out = Vec::new(alloc);
    for place in line.places.as_slice() {
        if out.push(word_at(words, *place)).is_err() {
            return Err(NoMemory);
        }
    }
    Ok(out)
}

/// What `metis` is asked by a line with these arguments.
pub(crate) fn metis_line<'w>(line: &Line, words: &'w [&'w str]) -> MetisLine<'w>
    requires { 2 ≤ length words.now }
    ensures { metis_shown result ≡ metis_of line.now (map (λ w. w.now) words.now) }
{
    MetisLine {
        theory: words[0],
        goal: words[1],
        facts: &words[2..],
        budget: line.budget,
        shows: line.proof,
    }
}

/// What `check` is asked by a line with these arguments.
pub(crate) fn check_line<'w>(words: &[&'w str]) -> CheckLine<'w>
    requires { 2 ≤ length words.now }
    ensures { check_shown result ≡ check_of (map (λ w. w.now) words.now) }
{
    CheckLine {
        theory: words[0],
        proof: words[1],
    }
}

/// What `filter` and `problem` are asked by a line with these arguments.
pub(crate) fn slice_line<'w>(line: &Line, words: &[&'w str]) -> SliceLine<'w>
    requires { 2 ≤ length words.now }
    ensures { slice_shown result ≡ slice_of line.now (map (λ w. w.now) words.now) }
{
    SliceLine {
        theory: words[0],
        goal: words[1],
        slice: line.slice,
    }
}

/// What `prove` is asked by a line with these arguments.
pub(crate) fn goal_line<'w>(words: &[&'w str]) -> GoalLine<'w>
    requires { 2 ≤ length words.now }
    ensures { goal_shown result ≡ goal_of (map (λ w. w.now) words.now) }
{
    GoalLine {
        theory: words[0],
        goal: words[1],
    }
}
