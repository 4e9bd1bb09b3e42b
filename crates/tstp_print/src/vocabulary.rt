ghost use Rattle.std.specs.Prelude.{◌≡◌, ◌++◌, ◌∷◌, [], ℕ, List, not, if◌then◌else◌, IfOk, OnOk};
ghost use Rattle.std.specs.List.{list_any};
ghost use Rattle.std.specs.Str.{bytes_eq};
ghost use Rattle.tstp_print.specs.Names.{is_taken as is_taken_of, new_name, symbol_text};
ghost use Rattle.tstp_print.specs.inner.Tables.{Holds, NumbersNew};

use crate::names::put_name;
use std::alloc::Global;
use std::collections::BTreeMap;
use text_kit::{Bytes, NoMemory, Rows, put_decimal};

/// A set of names. One is found in logarithmic time, whatever the names are.
type NameSet = BTreeMap<Vec<u8>, ()>;

fn add_name(set: &mut NameSet, alloc: Global, name: &[u8]) -> Result<(), NoMemory>
    ensures { OnOk result ((names : List (List ℕ)) → Holds set.old names → Holds set.new (names ++ name.now ∷ [])) }
{
    let Ok(key) = Vec::from_slice(alloc, name) else {
        return Err(NoMemory);
    };
    match set.insert(key, ()) {
        Ok(_) => Ok(()),
        Err(_) => Err(NoMemory),
    }
}

fn set_of(alloc: Global, names: &[Bytes]) -> Result<NameSet, NoMemory>
    ensures { IfOk result (λ set. Holds set names.now) }
{
    let mut set = BTreeMap::new(alloc);
    for name in names {
        add_name(&mut set, alloc, name.as_slice())?;
    }
    Ok(set)
}

/// Whether a name is in the set.
fn has(set: &NameSet, name: &[u8]) -> bool
    ensures { (names : List (List ℕ)) → Holds set.now names → result ≡ list_any (λ n. bytes_eq n name.now) names }
{
    set.contains_key(name)
}

/// Appends the name of a new symbol.
fn put_new_name(out: &mut Bytes, number: u64) -> Result<(), NoMemory>
    ensures { OnOk result (out.new ≡ out.old ++ new_name number) }
{
    out.append(b"sk_")?;
    put_decimal(out, number)
}

/// Whether a symbol of the text has the new symbol's name.
fn is_taken(alloc: Global, set: &NameSet, number: u64) -> Result<bool, NoMemory>
    ensures { (names : List (List ℕ)) → Holds set.now names → IfOk result (λ b. b ≡ is_taken_of names number) }
{
    let mut name = Bytes::begin(alloc);
    put_new_name(&mut name, number)?;
    Ok(has(set, name.as_slice()))
}

fn push_unless(out: &mut Rows<u64>, taken: bool, number: u64) -> Result<(), NoMemory>
    ensures { OnOk result (out.new ≡ out.old ++ (if not taken then number ∷ [] else [])) }
{
    if taken { Ok(()) } else { out.push(number) }
}

/// The most names, and the most numbers that are looked at.
const MOST: usize = 0xffff_ffff;

/// The numbers in the names of so many new symbols, or of fewer where there are too many.
pub fn new_numbers(alloc: Global, names: &[Bytes], count: usize) -> Result<Rows<u64>, NoMemory>
    ensures { IfOk result (NumbersNew names.now) }
{
    if names.len() > MOST {
        return Err(NoMemory);
    }
    let set = set_of(alloc, names)?;
    let mut out = Rows::begin(alloc);
    for k in 0..MOST {
        if out.len() >= count {
            return Ok(out);
        }
        let taken = is_taken(alloc, &set, k as u64)?;
        push_unless(&mut out, taken, k as u64)?;
    }
    Ok(out)
}

/// The names of a problem's symbols, and the numbers in the names of the new ones.
#[derive(Drop)]
pub struct Vocabulary<'a> {
    pub names: &'a [Bytes],
    pub numbers: &'a [u64],
    ghost told: { NumbersNew names.now numbers.now },
}

/// Appends the name of a symbol. A new symbol beyond the table is want of memory.
pub fn put_symbol(out: &mut Bytes, words: &Vocabulary, f: u64) -> Result<(), NoMemory>
    ensures { OnOk result (out.new ≡ out.old ++ symbol_text words.now.names.now f) }
{
    let place = f as usize;
    if place < words.names.len() {
        return put_name(out, words.names[place].as_slice());
    }
    match words.numbers.get(place - words.names.len()) {
        Some(number) => put_new_name(out, *number),
        None => Err(NoMemory),
    }
}
