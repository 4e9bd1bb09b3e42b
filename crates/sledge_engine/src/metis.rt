ghost use Rattle.std.specs.Prelude.{◌≡◌, ◌<◌, ◌++◌, [], length, IfOk, IsTrue, OnOk, map};
ghost use Rattle.theory_reader.specs.Sound.{fact_names};
ghost use Rattle.theory_reader.specs.Seen.{IsEnvOf, seen};
ghost use Rattle.sledge_engine.specs.Choice.{AllVisible, chosen as chosen_of, names_at};
ghost use Rattle.slot_work.specs.Visible.{goal_fits};
ghost use Rattle.sledge_engine.specs.Metis.{GoalReply, MetisReply, shown};
ghost use Rattle.sledge_engine.specs.Texts.{metis_text};
ghost use Rattle.sledge_engine.specs.inner.Asked.{IsAsked, IsReplayed, said};
ghost use Rattle.sledge_engine.specs.inner.Fetches.{outside};
ghost use Rattle.sledge_engine.specs.inner.Shown.{metis_shown};

use crate::choice::{choose, put_names_at};
use crate::posing::{Posed, open_goal};
use crate::seen::seen_facts;
use crate::texts::put_refusal;
use crate::visible::first_hidden;
use crate::words::MetisLine;
use hol_kernel::Proven;
use hol_terms::Env;
use kernel_rules::Step;
use proof_text::print_proof;
use race_outside::Shelf;
use slot_work::{Replayed, replay_facts};
use std::alloc::Global;
use text_kit::{Bytes, NoMemory, Rows};
use theory_reader::{Fact, Theory};

/// A goal of a theory with what it may be proved from, and the facts that are named.
#[derive(Clone, Copy, Drop)]
struct Asked<'a> {
    theory: &'a Theory,
    goal: u32,
    env: &'a Env,
    /// The environment's facts with their names, by their numbers.
    facts: &'a [&'a Fact],
    words: &'a [&'a str],
    /// Picks of a search.
    budget: u32,
    /// Whether the proof is to be shown.
    shows: bool,
}

/// Appends the text of a proof where it is to be shown.
fn put_shown(
    alloc: Global,
    asked: &Asked,
    steps: &Rows<Step>,
    text: &mut Bytes,
) -> Result<(), NoMemory>
    requires { asked.now.goal < length asked.now.theory.now.goals }
    ensures { OnOk result (text.new ≡ text.old ++ shown asked.now.shows asked.now.theory.now asked.now.goal steps.now) }
{
    if asked.shows {
        let proof = print_proof(alloc, asked.theory, asked.goal, steps)?;
        text.append(proof.as_slice())
    } else {
        Ok(())
    }
}

/// Puts the report of a proof, and the proof where it is to be shown.
fn put_proved(
    alloc: Global,
    asked: &Asked,
    proven: &Proven,
    text: &mut Bytes,
) -> Result<u8, NoMemory>
    requires goal { asked.now.goal < length asked.now.theory.now.goals }
    requires text { text.old ≡ [] }
    ensures { IfOk result (λ status. (status ≡ 0) × (text.new ≡ metis_text (names_at (fact_names (map (λ f. f.now) asked.now.facts.now)) proven.now.names) ++ shown asked.now.shows asked.now.theory.now asked.now.goal proven.now.steps)) }
{
    text.append(b"proof: by metis")?;
    put_names_at(text, asked.facts, proven.names.as_slice())?;
    text.append(b"\n")?;
    put_shown(alloc, asked, &proven.steps, text)?;
    Ok(0)
}

/// Puts a text that says that there is no proof.
fn put_unproved(text: &mut Bytes, piece: &[u8]) -> Result<u8, NoMemory>
    requires { text.old ≡ [] }
    ensures { IfOk result (λ status. (status ≡ 1) × (text.new ≡ piece.now)) }
{
    text.append(piece)?;
    Ok(1)
}

/// Reports how the replay of the named facts ended.
fn report(
    alloc: Global,
    asked: &Asked,
    replayed: &Replayed,
    text: &mut Bytes,
) -> Result<u8, NoMemory>
    requires asked { IsAsked asked.now }
    requires visible { AllVisible asked.now.theory.now asked.now.goal (said asked.now) }
    requires replayed { IsReplayed asked.now replayed.now }
    requires text { text.old ≡ [] }
    ensures { IfOk result (λ status. GoalReply asked.now.theory.now asked.now.goal (said asked.now) asked.now.budget asked.now.shows status text.new) }
{
    match replayed {
        Replayed::Proved(proven) => put_proved(alloc, asked, proven, text),
        Replayed::Saturated => put_unproved(text, b"proof: not found (saturated)\n"),
        Replayed::Spent => put_unproved(text, b"proof: not found (spent)\n"),
    }
}

/// Replays the named facts, by their numbers.
fn replay_named(alloc: Global, asked: &Asked, numbers: &Rows<u32>) -> Result<Replayed, NoMemory>
    requires asked { IsAsked asked.now }
    requires visible { AllVisible asked.now.theory.now asked.now.goal (said asked.now) }
    requires numbers { numbers.now ≡ chosen_of (said asked.now) asked.now.theory.now asked.now.goal }
    ensures { IfOk result (IsReplayed asked.now) }
{
    replay_facts(alloc, asked.env, numbers, asked.budget)
}

/// Answers where each named fact is visible.
fn answer_visible(alloc: Global, asked: &Asked, text: &mut Bytes) -> Result<u8, NoMemory>
    requires asked { IsAsked asked.now }
    requires visible { AllVisible asked.now.theory.now asked.now.goal (said asked.now) }
    requires text { text.old ≡ [] }
    ensures { IfOk result (λ status. GoalReply asked.now.theory.now asked.now.goal (said asked.now) asked.now.budget asked.now.shows status text.new) }
{
    let numbers = choose(alloc, asked.facts, asked.words)?;
    let replayed = replay_named(alloc, asked, &numbers)?;
    report(alloc, asked, &replayed, text)
}

/// Answers a goal over its environment and its facts.
fn answer_asked(alloc: Global, asked: &Asked, text: &mut Bytes) -> Result<u8, NoMemory>
    requires asked { IsAsked asked.now }
    requires text { text.old ≡ [] }
    ensures { IfOk result (λ status. GoalReply asked.now.theory.now asked.now.goal (said asked.now) asked.now.budget asked.now.shows status text.new) }
{
    let names = asked.theory.seen_names(alloc, asked.goal)?;
    match first_hidden(alloc, &names, asked.env, asked.words)? {
        Some(name) => put_refusal(text, 2, b"fault: fact ", name.as_bytes(), b"\n"),
        None => answer_visible(alloc, asked, text),
    }
}

/// Answers a goal over its environment.
fn answer_goal(
    alloc: Global,
    theory: &Theory,
    goal: u32,
    env: &Env,
    line: MetisLine,
    text: &mut Bytes,
) -> Result<u8, NoMemory>
    requires goal { goal < length theory.now.goals }
    requires env { IsEnvOf theory.now goal env.now }
    requires fits { IsTrue (goal_fits theory.now goal) }
    requires text { text.old ≡ [] }
    ensures { IfOk result (λ status. GoalReply theory.now goal (metis_shown line.entry).facts (metis_shown line.entry).budget (metis_shown line.entry).shows status text.new) }
{
    let facts = seen_facts(alloc, theory, goal)?;
    let asked = Asked {
        theory,
        goal,
        env,
        facts: facts.as_slice(),
        words: line.facts,
        budget: line.budget,
        shows: line.shows,
    };
    answer_asked(alloc, &asked, text)
}

/// Answers a line of `metis`: puts the text and gives the status.
pub(crate) fn answer_metis<H: Shelf>(
    alloc: Global,
    line: MetisLine,
    shelf: &mut H,
    text: &mut Bytes,
) -> Result<u8, NoMemory>
    requires { text.old ≡ [] }
    ensures { IfOk result (λ status. MetisReply (outside (H.held shelf.old) (H.sure shelf.old) (H.faults shelf.old) (H.faults shelf.new)) (metis_shown line.entry) status text.new) }
{
    match open_goal(alloc, line.theory, line.goal, shelf, text)? {
        Posed::Goal(theory, goal, env) => answer_goal(alloc, &theory, goal, &env, line, text),
        Posed::Refused(status) => Ok(status),
    }
}
