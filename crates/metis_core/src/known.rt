ghost use Rattle.std.specs.Prelude.{◌≡◌, ◌≢◌, ◌↔◌, ℕ, nat_eq, IsTrue, OnOk, Any, Contains};
ghost use Rattle.std.specs.HashMap.{get};
ghost use Rattle.metis_core.specs.Stock.{places_at, Notes, IsIndex, IsLine, clauses};

use fo_cells::{FlatClause, print_of};
use fo_infer::Line;
use fo_terms::Clause;
use std::alloc::Global;
use std::collections::HashMap;
use text_kit::{NoMemory, Rows};

/// Numbers of kept clauses by their prints.
pub type Places = HashMap<u64, Rows<u32>>;

fn is_line(lines: &[Line], n: u32, c: &Clause) -> bool
    ensures { IsTrue result ↔ IsLine lines.now c.now n }
{
    let at = n as usize;
    if at >= lines.len() {
        return false;
    }
    lines[at].clause.same(c)
}

fn is_at(places: &[u32], lines: &[Line], c: &Clause) -> bool
    ensures { IsTrue result ↔ Any (IsLine lines.now c.now) places.now }
{
    for n in places {
        if is_line(lines, *n, c) {
            return true;
        }
    }
    false
}

fn is_flat_line(lines: &[Line], n: u32, c: &FlatClause) -> bool
    ensures { IsTrue result ↔ IsLine lines.now (record { literals = c.now }) n }
{
    let at = n as usize;
    if at >= lines.len() {
        return false;
    }
    c.is_clause(&lines[at].clause)
}

fn is_flat_at(places: &[u32], lines: &[Line], c: &FlatClause) -> bool
    ensures { IsTrue result ↔ Any (IsLine lines.now (record { literals = c.now })) places.now }
{
    for n in places {
        if is_flat_line(lines, *n, c) {
            return true;
        }
    }
    false
}

/// Whether a line holds the clause of these literals. It takes no memory.
pub fn is_flat_known(known: &Places, lines: &[Line], c: &FlatClause) -> bool
    requires { IsIndex known.now lines.now }
    ensures { IsTrue result ↔ Contains (clauses lines.now) (record { literals = c.now }) }
{
    match known.get(&c.print()) {
        Some(places) => is_flat_at(places.as_slice(), lines, c),
        None => false,
    }
}

/// Whether a line holds the clause. It takes no memory.
pub fn is_known(known: &Places, lines: &[Line], c: &Clause) -> bool
    requires { IsIndex known.now lines.now }
    ensures { IsTrue result ↔ Contains (clauses lines.now) c.now }
{
    match known.get(&print_of(c)) {
        Some(places) => is_at(places.as_slice(), lines, c),
        None => false,
    }
}

fn taken(known: &mut Places, alloc: Global, print: u64) -> Rows<u32>
    ensures value { result ≡ places_at known.old print }
    ensures others { (q : ℕ) → print ≢ q → get nat_eq known.new q ≡ get nat_eq known.old q }
{
    match known.remove(&print) {
        Some(places) => places,
        None => Rows::begin(alloc),
    }
}

/// Puts a number behind those at a print.
pub fn note(known: &mut Places, alloc: Global, print: u64, n: u32) -> Result<(), NoMemory>
    ensures { OnOk result (Notes known.old known.new print n) }
{
    let mut places = taken(known, alloc, print);
    places.push(n)?;
    match known.insert(print, places) {
        Ok(_) => Ok(()),
        Err(_) => Err(NoMemory),
    }
}
