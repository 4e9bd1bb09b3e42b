ghost use Rattle.std.specs.Prelude.{◌≡◌, ◌++◌, ◌∷◌, ℕ, List, [], if◌then◌else◌, map, IfOk, OnOk};
ghost use Rattle.kernel_rules.specs.Derivations.{leaf, leaves};
ghost use Rattle.theory_reader.specs.Sound.{fact_names};
ghost use Rattle.sledge_engine.specs.Texts.{spaced};
ghost use Rattle.sledge_engine.specs.Used.{listed_from};
ghost use Rattle.sledge_engine.specs.inner.Marks.{Marks};

use crate::choice::put_name;
use kernel_rules::Step;
use std::alloc::Global;
use text_kit::{Bytes, NoMemory, Rows};
use theory_reader::Fact;

/// As many marks as are asked for, none of them set.
fn no_marks(alloc: Global, count: usize) -> Result<Rows<bool>, NoMemory>
    ensures { IfOk result (Marks count []) }
{
    let mut marks = Rows::begin(alloc);
    for _ in 0..count {
        marks.push(false)?;
    }
    Ok(marks)
}

/// Marks the fact of a step.
fn mark(marks: &mut Rows<bool>, step: &Step)
    ensures { (count : ℕ) (numbers : List ℕ) → Marks count numbers marks.old → Marks count (numbers ++ leaf step.now) marks.new }
{
    if let Step::Fact(number) = step {
        if (*number as usize) < marks.len() {
            marks.set(*number as usize, true);
        }
    }
}

/// Which of the facts, by their numbers, stand in fact steps.
fn marked(alloc: Global, count: usize, steps: &[Step]) -> Result<Rows<bool>, NoMemory>
    ensures { IfOk result (Marks count (leaves steps.now)) }
{
    let mut marks = no_marks(alloc, count)?;
    for step in steps {
        mark(&mut marks, step);
    }
    Ok(marks)
}

/// Appends a space and a name where it is asked for.
fn put_if(out: &mut Bytes, asked: bool, name: &[u8]) -> Result<(), NoMemory>
    ensures { OnOk result (out.new ≡ out.old ++ (if asked then 32 ∷ name.now else [])) }
{
    if asked { put_name(out, name) } else { Ok(()) }
}

/// Appends a space and the name of each fact that stands in a fact step by its number.
pub(crate) fn put_used(
    alloc: Global,
    out: &mut Bytes,
    facts: &[&Fact],
    steps: &[Step],
) -> Result<(), NoMemory>
    ensures { OnOk result (out.new ≡ out.old ++ spaced (listed_from 0 (leaves steps.now) (fact_names (map (λ f. f.now) facts.now)))) }
{
    let marks = marked(alloc, facts.len(), steps)?;
    for i in 0..facts.len() {
        put_if(out, *marks.at(i), facts[i].name.as_slice())?;
    }
    Ok(())
}
