ghost use Rattle.std.specs.Prelude.{◌≡◌, ◌<◌, ◌+◌, ◌-◌, ◌++◌, ◌∷◌, [], ℕ, Some, length, replicate, true, false, slice_get, slice_set, if◌then◌else◌, IfOk, OnOk};
ghost use Rattle.fo_infer.specs.declared.refutation.Line.{Line as DerivedLine};
ghost use Rattle.std.specs.List.{filter};
ghost use Rattle.tstp_print.specs.Names.{below};
ghost use Rattle.tstp_print.specs.Used.{IsParent, IsUsed, IsCited, AreThose, AreDrawn};
ghost use Rattle.tstp_print.specs.inner.Marking.{is_marked, parents_marked, mark_step, all_marked, last_marked, AreUsedMarks, AreCitedMarks, source_marked, HasSource};

use fo_infer::{Line, Origin};
use std::alloc::Global;
use text_kit::{NoMemory, Rows};

/// So many places without a mark.
fn no_marks(alloc: Global, n: usize) -> Result<Rows<bool>, NoMemory>
    ensures { IfOk result (λ marks. marks ≡ replicate n false) }
{
    match vec![in alloc; false; n] {
        Ok(marks) => Ok(Rows::from_vec(marks)),
        Err(_) => Err(NoMemory),
    }
}

/// Marks the lines that a line comes from.
fn mark_parents(marks: &mut Rows<bool>, origin: &Origin)
    requires { (m : ℕ) → IsParent origin.now m → m < length marks.old }
    ensures { marks.new ≡ parents_marked origin.now marks.old }
{
    match origin {
        Origin::Input { number: _ } => {}
        Origin::Alone { of, rule: _ } => marks.set(*of as usize, true),
        Origin::Pair {
            left,
            right,
            rule: _,
        } => {
            marks.set(*left as usize, true);
            marks.set(*right as usize, true);
        }
    }
}

/// Marks the parents of a line that is marked.
fn mark_line(marks: &mut Rows<bool>, lines: &[Line], n: usize)
    requires place { n < length lines.now }
    requires count { length marks.old ≡ length lines.now }
    requires drawn { AreDrawn lines.now }
    ensures { marks.new ≡ mark_step lines.now n marks.old }
{
    if *marks.at(n) {
        mark_parents(marks, &lines[n].origin);
    }
}

/// Marks what the marked lines come from. A line's parents are earlier, so one way down is enough.
fn mark_all(marks: &mut Rows<bool>, lines: &[Line])
    requires count { length marks.old ≡ length lines.now }
    requires drawn { AreDrawn lines.now }
    ensures { marks.new ≡ all_marked lines.now (length lines.now) marks.old }
{
    let mut n = lines.len();
    'down: while n > 0 {
        n -= 1;
        mark_line(marks, lines, n);
    }
}

fn mark_last(marks: &mut Rows<bool>)
    ensures { marks.new ≡ slice_set marks.old (length marks.old - 1) true }
{
    let count = marks.len();
    if count > 0 {
        marks.set(count - 1, true);
    }
}

/// Marks at the lines that are used.
fn used_marks(alloc: Global, lines: &[Line]) -> Result<Rows<bool>, NoMemory>
    requires { AreDrawn lines.now }
    ensures { IfOk result (AreUsedMarks lines.now) }
{
    let mut marks = no_marks(alloc, lines.len())?;
    mark_last(&mut marks);
    mark_all(&mut marks, lines);
    Ok(marks)
}

fn push_if(out: &mut Rows<u64>, wanted: bool, n: u64) -> Result<(), NoMemory>
    ensures { OnOk result (out.new ≡ out.old ++ (if wanted then n ∷ [] else [])) }
{
    if wanted { out.push(n) } else { Ok(()) }
}

/// The places with a mark, in order.
fn marked_places(alloc: Global, marks: &Rows<bool>) -> Result<Rows<u64>, NoMemory>
    ensures { IfOk result (λ ns. ns ≡ filter (is_marked marks.now) (below (length marks.now))) }
{
    let mut out = Rows::begin(alloc);
    for n in 0..marks.len() {
        push_if(&mut out, *marks.at(n), n as u64)?;
    }
    Ok(out)
}

/// Marks the statement of an input.
fn mark_source(marks: &mut Rows<bool>, sources: &[u32], origin: &Origin)
    requires { HasSource sources.now (length marks.old) origin.now }
    ensures { marks.new ≡ source_marked sources.now origin.now marks.old }
{
    match origin {
        Origin::Input { number } => marks.set(sources[*number as usize] as usize, true),
        Origin::Alone { of: _, rule: _ } => {}
        Origin::Pair {
            left: _,
            right: _,
            rule: _,
        } => {}
    }
}

/// Marks the statement of a line that is used, where it is an input.
fn mark_cited(marks: &mut Rows<bool>, sources: &[u32], lines: &[Line], used: &Rows<bool>, n: usize)
    requires place { n < length lines.now }
    requires count { length used.now ≡ length lines.now }
    requires sources { (k : ℕ) (l : DerivedLine) → slice_get lines.now k ≡ Some l → HasSource sources.now (length marks.old) l.origin }
    requires before { AreCitedMarks sources.now lines.now used.now n marks.old }
    ensures count { length marks.new ≡ length marks.old }
    ensures marks { AreCitedMarks sources.now lines.now used.now (n + 1) marks.new }
{
    if !*used.at(n) {
        return;
    }
    mark_source(marks, sources, &lines[n].origin);
}

/// Marks at the statements of the inputs among the marked lines.
fn cited_marks(
    alloc: Global,
    statements: usize,
    sources: &[u32],
    lines: &[Line],
    used: &Rows<bool>,
) -> Result<Rows<bool>, NoMemory>
    requires count { length used.now ≡ length lines.now }
    requires sources { (n : ℕ) (l : DerivedLine) → slice_get lines.now n ≡ Some l → HasSource sources.now statements l.origin }
    ensures count { IfOk result (λ marks. length marks ≡ statements) }
    ensures marks { IfOk result (AreCitedMarks sources.now lines.now used.now (length lines.now)) }
{
    let mut marks = no_marks(alloc, statements)?;
    for n in 0..lines.len() {
        mark_cited(&mut marks, sources, lines, used, n);
    }
    Ok(marks)
}

/// The numbers of the statements and of the lines that the last line needs.
#[derive(Drop)]
pub struct Needed {
    pub statements: Rows<u64>,
    pub lines: Rows<u64>,
}

/// What the last line needs.
pub fn needed_of(
    alloc: Global,
    statements: usize,
    sources: &[u32],
    lines: &[Line],
) -> Result<Needed, NoMemory>
    requires drawn { AreDrawn lines.now }
    requires sources { (n : ℕ) (l : DerivedLine) → slice_get lines.now n ≡ Some l → HasSource sources.now statements l.origin }
    ensures lines { IfOk result (λ r. AreThose (IsUsed lines.now) (length lines.now) r.lines) }
    ensures statements { IfOk result (λ r. AreThose (IsCited sources.now lines.now) statements r.statements) }
{
    let used = used_marks(alloc, lines)?;
    let cited = cited_marks(alloc, statements, sources, lines, &used)?;
    Ok(Needed {
        statements: marked_places(alloc, &cited)?,
        lines: marked_places(alloc, &used)?,
    })
}
