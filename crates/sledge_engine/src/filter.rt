ghost use Rattle.std.specs.Prelude.{◌≡◌, ◌<◌, ◌++◌, [], length, map, IfOk, OnOk};
ghost use Rattle.std.specs.List.{flat_map};
ghost use Rattle.theory_reader.specs.Sound.{fact_names};
ghost use Rattle.theory_reader.specs.Seen.{IsEnvOf};
ghost use Rattle.sledge_engine.specs.Filter.{FilterReply, chosen_line, filter_text, slice_choice};
ghost use Rattle.sledge_engine.specs.Texts.{Is};
ghost use Rattle.sledge_engine.specs.inner.Fetches.{outside};
ghost use Rattle.sledge_engine.specs.inner.Shown.{slice_shown};

use crate::choice::name_at;
use crate::posing::{Posed, open_goal};
use crate::seen::seen_facts;
use crate::slices::chosen_by_slice;
use crate::words::SliceLine;
use hol_terms::Env;
use mepo_filter::Chosen;
use race_outside::Shelf;
use std::alloc::Global;
use text_kit::{Bytes, NoMemory, put_decimal};
use theory_reader::{Fact, Theory};

/// Appends the line of a chosen fact.
fn put_line(text: &mut Bytes, facts: &[&Fact], chosen: &Chosen) -> Result<(), NoMemory>
    ensures { OnOk result (text.new ≡ text.old ++ chosen_line (fact_names (map (λ f. f.now) facts.now)) chosen.now) }
{
    text.append(name_at(facts, chosen.fact))?;
    text.push(b' ')?;
    put_decimal(text, chosen.round as u64)?;
    text.push(b' ')?;
    put_decimal(text, chosen.top)?;
    text.push(b'/')?;
    put_decimal(text, chosen.bottom)?;
    text.push(b'\n')
}

/// Appends the line of each chosen fact.
fn put_lines(text: &mut Bytes, facts: &[&Fact], chosen: &[Chosen]) -> Result<(), NoMemory>
    ensures { OnOk result (text.new ≡ text.old ++ flat_map (chosen_line (fact_names (map (λ f. f.now) facts.now))) chosen.now) }
{
    for c in chosen {
        put_line(text, facts, c)?;
    }
    Ok(())
}

/// Puts what a slice chooses for a goal.
fn put_choice(
    alloc: Global,
    theory: &Theory,
    goal: u32,
    chosen: &[Chosen],
    text: &mut Bytes,
) -> Result<u8, NoMemory>
    requires goal { goal < length theory.now.goals }
    requires text { text.old ≡ [] }
    ensures { IfOk result (λ status. Is 0 (filter_text theory.now goal chosen.now) status text.new) }
{
    let facts = seen_facts(alloc, theory, goal)?;
    put_lines(text, facts.as_slice(), chosen)?;
    Ok(0)
}

/// Answers a goal over its environment.
fn answer_goal(
    alloc: Global,
    theory: &Theory,
    goal: u32,
    env: &Env,
    slice: u32,
    text: &mut Bytes,
) -> Result<u8, NoMemory>
    requires goal { goal < length theory.now.goals }
    requires env { IsEnvOf theory.now goal env.now }
    requires slice { slice < 64 }
    requires text { text.old ≡ [] }
    ensures { IfOk result (λ status. Is 0 (filter_text theory.now goal (slice_choice theory.now goal slice)) status text.new) }
{
    let chosen = chosen_by_slice(alloc, theory, goal, env, slice)?;
    put_choice(alloc, theory, goal, chosen.as_slice(), text)
}

/// Answers a line of `filter`: puts the text and gives the status.
pub(crate) fn answer_filter<H: Shelf>(
    alloc: Global,
    line: SliceLine,
    shelf: &mut H,
    text: &mut Bytes,
) -> Result<u8, NoMemory>
    requires slice { line.slice < 64 }
    requires text { text.old ≡ [] }
    ensures { IfOk result (λ status. FilterReply (outside (H.held shelf.old) (H.sure shelf.old) (H.faults shelf.old) (H.faults shelf.new)) (slice_shown line.entry) status text.new) }
{
    match open_goal(alloc, line.theory, line.goal, shelf, text)? {
        Posed::Goal(theory, goal, env) => {
            answer_goal(alloc, &theory, goal, &env, line.slice, text)
        }
        Posed::Refused(status) => Ok(status),
    }
}
