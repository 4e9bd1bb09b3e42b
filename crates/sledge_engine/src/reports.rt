ghost use Rattle.std.specs.Prelude.{◌≡◌, ◌<◌, ◌++◌, [], decimal, length, map, IfOk, OnOk};
ghost use Rattle.std.specs.Option.{option_map};
ghost use Rattle.theory_reader.specs.Sound.{fact_names};
ghost use Rattle.theory_reader.specs.Seen.{seen};
ghost use Rattle.sledge_engine.specs.Choice.{names_at};
ghost use Rattle.sledge_engine.specs.Metis.{shown};
ghost use Rattle.sledge_engine.specs.Texts.{around, metis_text, spaced};
ghost use Rattle.sledge_engine.specs.Reports.{accepted as accepted_of, drill_text, end_text, is_lost as lost, is_out_of_memory as out_of_memory, numbers_text, outcome_text, proof_of, proof_shown, prove_text, race_status, slot_proof, slot_text, slot_texts, some_slot, unwon_status, unwon_text, won_text};

use crate::choice::put_names_at;
use crate::finished::Finished;
use crate::seen::seen_facts;
use hol_kernel::Proven;
use proof_text::print_proof;
use race_core::{Outcome, SlotEnd};
use std::alloc::Global;
use text_kit::{Bytes, NoMemory, put_decimal};
use theory_reader::{Fact, Theory};

/// Appends a text and a number.
fn put_number(text: &mut Bytes, before: &[u8], n: u64) -> Result<(), NoMemory>
    ensures { OnOk result (text.new ≡ text.old ++ (before.now ++ decimal n)) }
{
    text.append(before)?;
    put_decimal(text, n)
}

/// Appends what is said of a slot that is proved.
fn put_proof(text: &mut Bytes, facts: &[&Fact], proven: &Proven) -> Result<(), NoMemory>
    ensures { OnOk result (text.new ≡ text.old ++ outcome_text (fact_names (map (λ f. f.now) facts.now)) (Outcome.Proved proven.now)) }
{
    text.append(b"proved")?;
    put_names_at(text, facts, proven.names.as_slice())
}

/// Appends what is said of a slot that ended so.
fn put_outcome(text: &mut Bytes, facts: &[&Fact], outcome: &Outcome<Proven>) -> Result<(), NoMemory>
    ensures { OnOk result (text.new ≡ text.old ++ outcome_text (fact_names (map (λ f. f.now) facts.now)) outcome.now) }
{
    match outcome {
        Outcome::Proved(proven) => put_proof(text, facts, proven),
        Outcome::NoStart => text.append(b"no start"),
        Outcome::Lost { stray } => put_number(text, b"lost ", *stray),
        Outcome::ReadFault => text.append(b"read fault"),
        Outcome::TooLong => text.append(b"too long"),
        Outcome::NoStatus => text.append(b"no status"),
        Outcome::NoProof => text.append(b"no proof"),
        Outcome::BadText { at } => put_number(text, b"bad text at ", *at),
        Outcome::Saturated => text.append(b"saturated"),
        Outcome::Spent => text.append(b"spent"),
        Outcome::TimedOut => text.append(b"timed out"),
        Outcome::Cancelled => text.append(b"cancelled"),
        Outcome::NoMemory => text.append(b"out of memory"),
    }
}

/// Appends the line of a slot.
fn put_slot(
    text: &mut Bytes,
    facts: &[&Fact],
    slot: usize,
    outcome: &Outcome<Proven>,
) -> Result<(), NoMemory>
    ensures { OnOk result (text.new ≡ text.old ++ slot_text (fact_names (map (λ f. f.now) facts.now)) slot outcome.now) }
{
    put_number(text, b"slot ", slot as u64)?;
    text.append(b": ")?;
    put_outcome(text, facts, outcome)?;
    text.append(b"\n")
}

/// Appends a line for each slot.
fn put_slots(text: &mut Bytes, facts: &[&Fact], slots: &[SlotEnd<Proven>]) -> Result<(), NoMemory>
    ensures { OnOk result (text.new ≡ text.old ++ slot_texts (fact_names (map (λ f. f.now) facts.now)) 0 slots.now) }
{
    for k in 0..slots.len() {
        put_slot(text, facts, k, &slots[k].outcome)?;
    }
    Ok(())
}

fn is_out_of_memory(outcome: &Outcome<Proven>) -> bool
    ensures { result ≡ out_of_memory outcome.now }
{
    matches!(outcome, Outcome::NoMemory)
}

fn is_lost(outcome: &Outcome<Proven>) -> bool
    ensures { result ≡ lost outcome.now }
{
    matches!(outcome, Outcome::Lost { .. })
}

/// Whether some slot wanted for memory.
fn some_out_of_memory(slots: &[SlotEnd<Proven>]) -> bool
    ensures { result ≡ some_slot out_of_memory slots.now }
{
    slots.iter().any(|end| is_out_of_memory(&end.outcome))
}

/// Whether some slot is lost.
fn some_lost(slots: &[SlotEnd<Proven>]) -> bool
    ensures { result ≡ some_slot lost slots.now }
{
    slots.iter().any(|end| is_lost(&end.outcome))
}

/// Appends the last line of a race without a winner, and gives its status.
fn put_unwon(text: &mut Bytes, slots: &[SlotEnd<Proven>]) -> Result<u8, NoMemory>
    ensures { IfOk result (λ status. (status ≡ unwon_status slots.now) × (text.new ≡ text.old ++ unwon_text slots.now)) }
{
    if some_out_of_memory(slots) {
        text.append(b"proof: out of memory\n")?;
        return Ok(6);
    }
    if some_lost(slots) {
        text.append(b"proof: lost\n")?;
        return Ok(8);
    }
    text.append(b"proof: not found\n")?;
    Ok(1)
}

/// The proof that an outcome has.
fn proof_in(outcome: &Outcome<Proven>) -> Option<&Proven>
    ensures { option_map (λ p. p.now) result ≡ proof_of outcome.now }
{
    match outcome {
        Outcome::Proved(proven) => Some(proven),
        _ => None,
    }
}

/// The proof of a slot.
fn proof_at(slots: &[SlotEnd<Proven>], slot: u32) -> Option<&Proven>
    ensures { option_map (λ p. p.now) result ≡ slot_proof slots.now slot }
{
    match slots.get(slot as usize) {
        Some(end) => proof_in(&end.outcome),
        None => None,
    }
}

/// The winner's proof.
fn accepted(finished: &Finished) -> Option<&Proven>
    ensures { option_map (λ p. p.now) result ≡ accepted_of finished.now }
{
    match finished.winner {
        Some(slot) => proof_at(finished.slots.as_slice(), slot),
        None => None,
    }
}

/// Appends the names of facts, each behind a space, between two texts.
fn put_listed(
    text: &mut Bytes,
    before: &[u8],
    facts: &[&Fact],
    numbers: &[u32],
    after: &[u8],
) -> Result<(), NoMemory>
    ensures { OnOk result (text.new ≡ text.old ++ around before.now (spaced (names_at (fact_names (map (λ f. f.now) facts.now)) numbers.now)) after.now) }
{
    text.append(before)?;
    put_names_at(text, facts, numbers)?;
    text.append(after)
}

/// Appends the line of a proof.
fn put_proof_line(text: &mut Bytes, facts: &[&Fact], proven: &Proven) -> Result<(), NoMemory>
    ensures { OnOk result (text.new ≡ text.old ++ metis_text (names_at (fact_names (map (λ f. f.now) facts.now)) proven.now.names)) }
{
    put_listed(
        text,
        b"proof: by metis",
        facts,
        proven.names.as_slice(),
        b"\n",
    )
}

/// Appends the last line of a race with this winner's proof.
fn put_won(text: &mut Bytes, facts: &[&Fact], proven: Option<&Proven>) -> Result<(), NoMemory>
    ensures { OnOk result (text.new ≡ text.old ++ won_text (fact_names (map (λ f. f.now) facts.now)) (option_map (λ p. p.now) proven.entry)) }
{
    match proven {
        Some(proven) => put_proof_line(text, facts, proven),
        None => Ok(()),
    }
}

/// Appends the last line of a race, and gives its status.
fn put_end(text: &mut Bytes, facts: &[&Fact], finished: &Finished) -> Result<u8, NoMemory>
    ensures { IfOk result (λ status. (status ≡ race_status finished.now) × (text.new ≡ text.old ++ end_text (fact_names (map (λ f. f.now) facts.now)) finished.now)) }
{
    match finished.winner {
        Some(_) => {
            put_won(text, facts, accepted(finished))?;
            Ok(0)
        }
        None => put_unwon(text, finished.slots.as_slice()),
    }
}

/// Appends the text of the winner's proof, where it is to be shown and there is one.
fn put_shown(
    alloc: Global,
    text: &mut Bytes,
    theory: &Theory,
    goal: u32,
    proven: &Proven,
    shows: bool,
) -> Result<(), NoMemory>
    requires { goal < length theory.now.goals }
    ensures { OnOk result (text.new ≡ text.old ++ shown shows theory.now goal proven.now.steps) }
{
    if shows {
        let proof = print_proof(alloc, theory, goal, &proven.steps)?;
        text.append(proof.as_slice())
    } else {
        Ok(())
    }
}

fn put_accepted(
    alloc: Global,
    text: &mut Bytes,
    theory: &Theory,
    goal: u32,
    finished: &Finished,
    shows: bool,
) -> Result<(), NoMemory>
    requires { goal < length theory.now.goals }
    ensures { OnOk result (text.new ≡ text.old ++ proof_shown shows theory.now goal (accepted_of finished.now)) }
{
    match accepted(finished) {
        Some(proven) => put_shown(alloc, text, theory, goal, proven, shows),
        None => Ok(()),
    }
}

/// Puts the report of `prove`, and gives its status.
pub(crate) fn put_prove_report(
    alloc: Global,
    theory: &Theory,
    goal: u32,
    shows: bool,
    finished: &Finished,
    text: &mut Bytes,
) -> Result<u8, NoMemory>
    requires goal { goal < length theory.now.goals }
    requires text { text.old ≡ [] }
    ensures { IfOk result (λ status. (status ≡ race_status finished.now) × (text.new ≡ prove_text shows theory.now goal finished.now)) }
{
    let facts = seen_facts(alloc, theory, goal)?;
    put_slots(text, facts.as_slice(), finished.slots.as_slice())?;
    let status = put_end(text, facts.as_slice(), finished)?;
    put_accepted(alloc, text, theory, goal, finished, shows)?;
    Ok(status)
}

/// Appends a space and each number.
fn put_numbers(text: &mut Bytes, numbers: &[u64]) -> Result<(), NoMemory>
    ensures { OnOk result (text.new ≡ text.old ++ numbers_text numbers.now) }
{
    for n in numbers {
        put_number(text, b" ", *n)?;
    }
    Ok(())
}

/// Puts the report of `drill`, and gives its status.
pub(crate) fn put_drill_report(
    alloc: Global,
    theory: &Theory,
    goal: u32,
    facts_asked: u32,
    chosen: &[u64],
    finished: &Finished,
    text: &mut Bytes,
) -> Result<u8, NoMemory>
    requires goal { goal < length theory.now.goals }
    requires text { text.old ≡ [] }
    ensures { IfOk result (λ status. (status ≡ race_status finished.now) × (text.new ≡ drill_text facts_asked chosen.now theory.now goal finished.now)) }
{
    let facts = seen_facts(alloc, theory, goal)?;
    put_number(text, b"facts ", facts_asked as u64)?;
    text.append(b"\nchosen")?;
    put_numbers(text, chosen)?;
    text.append(b"\n")?;
    put_end(text, facts.as_slice(), finished)
}
