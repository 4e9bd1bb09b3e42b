ghost use Rattle.std.specs.Prelude.{◌≡◌, ◌<◌, ◌++◌, ◌^◌, [], ◌∷◌, if◌then◌else◌, get_or, length, map, IfOk, OnOk};
ghost use Rattle.theory_reader.specs.Sound.{fact_names};
ghost use Rattle.sledge_engine.specs.Choice.{has_name, names_at as names_at_of};
ghost use Rattle.slot_work.specs.Visible.{places_from};
ghost use Rattle.sledge_engine.specs.Texts.{spaced};

use crate::tables::{is_in, table_of};
use std::alloc::Global;
use text_kit::{Bytes, NoMemory, Rows};
use theory_reader::Fact;
use theory_terms::Names;

/// Appends a number where it is asked for.
pub(crate) fn push_if(out: &mut Rows<u32>, asked: bool, number: u32) -> Result<(), NoMemory>
    ensures { OnOk result (out.new ≡ out.old ++ (if asked then number ∷ [] else [])) }
{
    if asked { out.push(number) } else { Ok(()) }
}

/// The numbers of the facts whose names are in the table.
fn choose_from(alloc: Global, facts: &[&Fact], table: &Names) -> Result<Rows<u32>, NoMemory>
    requires { length facts.now < 2 ^ 32 }
    ensures { IfOk result (λ numbers. numbers ≡ places_from 0 (has_name table.now) (map (λ f. f.now) facts.now)) }
{
    let mut numbers = Rows::begin(alloc);
    for i in 0..facts.len() {
        let asked = is_in(table, facts[i].name.as_slice());
        push_if(&mut numbers, asked, i as u32)?;
    }
    Ok(numbers)
}

/// The numbers of the facts whose names are among the words, ascending.
pub(crate) fn choose(alloc: Global, facts: &[&Fact], words: &[&str]) -> Result<Rows<u32>, NoMemory>
    requires { length facts.now < 2 ^ 32 }
    ensures { IfOk result (λ numbers. numbers ≡ places_from 0 (has_name (map (λ w. w.now) words.now)) (map (λ f. f.now) facts.now)) }
{
    let table = table_of(alloc, words)?;
    choose_from(alloc, facts, &table)
}

/// The name of the fact with this number, where there is one.
pub(crate) fn name_at<'t>(facts: &[&'t Fact], number: u32) -> &'t [u8]
    ensures { result.now ≡ get_or (fact_names (map (λ f. f.now) facts.now)) number [] }
{
    match facts.get(number as usize) {
        Some(fact) => fact.name.as_slice(),
        None => b"",
    }
}

/// Appends a space and a name.
pub(crate) fn put_name(out: &mut Bytes, name: &[u8]) -> Result<(), NoMemory>
    ensures { OnOk result (out.new ≡ out.old ++ 32 ∷ name.now) }
{
    out.push(b' ')?;
    out.append(name)
}

/// Appends a space and the name of the fact with each of these numbers.
pub(crate) fn put_names_at(
    out: &mut Bytes,
    facts: &[&Fact],
    numbers: &[u32],
) -> Result<(), NoMemory>
    ensures { OnOk result (out.new ≡ out.old ++ spaced (names_at_of (fact_names (map (λ f. f.now) facts.now)) numbers.now)) }
{
    for number in numbers {
        put_name(out, name_at(facts, *number))?;
    }
    Ok(())
}
