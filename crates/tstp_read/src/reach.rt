ghost use Rattle.std.specs.Prelude.{◌≡◌, ◌≢◌, ◌<◌, ℕ, List, length, slice_get, Some, IfOk, IfSome, OnOk, MatchOption};
ghost use Rattle.std.specs.Ordering.{nat_cmp};
ghost use Rattle.std.specs.Cmp.Lexicographic.{slice_cmp};
ghost use Rattle.std.specs.List.Sorted.{IsStrictlySortedBy};
ghost use Rattle.tstp_read.specs.declared.statements.Entry.{Entry as EntryOf};
ghost use Rattle.tstp_read.specs.inner.Machine.{joined};
ghost use Rattle.tstp_read.specs.inner.Leaves.{FindsLeaves, AreEntryLeaves, IsEntryRoot, HasNoRoot};
ghost use Rattle.tstp_read.specs.inner.Table.{look, listed, Puts, Notes, IsTable, Adds, Goes, Visits, Searches, table_of, names_of, search_of, starting};

use crate::sources::{Parent, join};
use crate::statements::Entry;
use std::alloc::Global;
use std::collections::{BTreeMap, BTreeSet};
use std::mem::replace;
use text_kit::{Bytes, NoMemory, Rows};

/// What the sources of all statements of a name give.
type Table = BTreeMap<Vec<u8>, Rows<Parent>>;

/// Names of leaves.
type Names = BTreeSet<Vec<u8>>;

fn key_of(alloc: Global, name: &Bytes) -> Result<Vec<u8>, NoMemory>
    ensures { IfOk result (λ k. k.items ≡ name.now) }
{
    match Vec::from_slice(alloc, name.as_slice()) {
        Ok(key) => Ok(key),
        Err(_) => Err(NoMemory),
    }
}

fn put_key(
    table: &mut Table,
    key: Vec<u8>,
    parents: Rows<Parent>,
) -> Result<Option<Rows<Parent>>, NoMemory>
    ensures before { IfOk result (λ before. before ≡ look (table_of table.old) key.items) }
    ensures puts { OnOk result (Puts (table_of table.old) (table_of table.new) key.items parents) }
{
    match table.insert(key, parents) {
        Ok(before) => Ok(before),
        Err(_) => Err(NoMemory),
    }
}

/// Puts parents in the place of those of a name, which it gives back.
fn swap(
    alloc: Global,
    table: &mut Table,
    name: &Bytes,
    parents: Rows<Parent>,
) -> Result<Option<Rows<Parent>>, NoMemory>
    ensures before { IfOk result (λ before. before ≡ look (table_of table.old) name.now) }
    ensures puts { OnOk result (Puts (table_of table.old) (table_of table.new) name.now parents) }
{
    let key = key_of(alloc, name)?;
    put_key(table, key, parents)
}

fn taken(alloc: Global, table: &mut Table, name: &Bytes) -> Rows<Parent>
    ensures value { result ≡ listed (look (table_of table.old) name.now) }
    ensures others { (m : List ℕ) → m ≢ name.now → look (table_of table.new) m ≡ look (table_of table.old) m }
{
    match table.remove(name.as_slice()) {
        Some(parents) => parents,
        None => Rows::begin(alloc),
    }
}

fn note(alloc: Global, table: &mut Table, entry: Entry) -> Result<(), NoMemory>
    ensures { OnOk result (Notes (table_of table.old) (table_of table.new) entry) }
{
    let before = taken(alloc, table, &entry.name);
    let all = join(before, entry.parents)?;
    match swap(alloc, table, &entry.name, all) {
        Ok(_) => Ok(()),
        Err(NoMemory) => Err(NoMemory),
    }
}

fn build_table(alloc: Global, entries: Rows<Entry>) -> Result<Table, NoMemory>
    ensures { IfOk result (λ table. IsTable entries (table_of table)) }
{
    let mut rest = entries;
    let mut table = BTreeMap::new(alloc);
    'entries: while let Some(entry) = rest.pop() {
        note(alloc, &mut table, entry)?;
    }
    Ok(table)
}

fn put_name(names: &mut Names, key: Vec<u8>) -> Result<(), NoMemory>
    ensures { OnOk result (Adds (names_of names.old) (names_of names.new) key.items) }
{
    match names.insert(key) {
        Ok(_added) => Ok(()),
        Err(_) => Err(NoMemory),
    }
}

fn add(alloc: Global, names: &mut Names, name: &Bytes) -> Result<(), NoMemory>
    ensures { OnOk result (Adds (names_of names.old) (names_of names.new) name.now) }
{
    let key = key_of(alloc, name)?;
    put_name(names, key)
}

fn put_off(alloc: Global, todo: &mut Rows<Parent>, parents: Rows<Parent>) -> Result<(), NoMemory>
    ensures { OnOk result (todo.new ≡ joined todo.old parents) }
{
    let before = replace(todo, Rows::begin(alloc));
    *todo = join(before, parents)?;
    Ok(())
}

fn follow(
    alloc: Global,
    names: &mut Names,
    todo: &mut Rows<Parent>,
    name: &Bytes,
    found: Option<Rows<Parent>>,
) -> Result<(), NoMemory>
    ensures { OnOk result (Goes (names_of names.old) (names_of names.new) todo.old todo.new name.now found) }
{
    match found {
        None => add(alloc, names, name),
        Some(parents) => put_off(alloc, todo, parents),
    }
}

/// Looks at a reference or leaf that is reached.
fn visit(
    alloc: Global,
    table: &mut Table,
    names: &mut Names,
    todo: &mut Rows<Parent>,
    parent: Parent,
) -> Result<(), NoMemory>
    ensures { OnOk result (Visits (search_of table.old names.old todo.old) (search_of table.new names.new todo.new) parent) }
{
    match parent {
        Parent::Leaf(name) => add(alloc, names, &name),
        Parent::Reference(name) => {
            let found = swap(alloc, table, &name, Rows::begin(alloc))?;
            follow(alloc, names, todo, &name, found)
        }
    }
}

/// Looks at all that is to be looked at, and at what comes up on the way.
fn reach(alloc: Global, table: &mut Table, todo: &mut Rows<Parent>) -> Result<Names, NoMemory>
    ensures { IfOk result (λ names. Searches (starting table.old todo.old) (search_of table.new names todo.new)) }
{
    let mut names = BTreeSet::new(alloc);
    'todo: while let Some(parent) = todo.pop() {
        visit(alloc, table, &mut names, todo, parent)?;
    }
    Ok(names)
}

fn in_order(alloc: Global, names: Names) -> Result<Rows<Bytes>, NoMemory>
    ensures same { IfOk result (λ out. out ≡ names_of names) }
    ensures ascending { IfOk result (λ out. IsStrictlySortedBy (slice_cmp nat_cmp) out) }
{
    let mut rest = names;
    let mut out = match Vec::with_capacity(alloc, rest.len()) {
        Ok(out) => out,
        Err(_) => return Err(NoMemory),
    };
    'names: while let Some(name) = rest.pop_first() {
        let name = Bytes::from_slice(alloc, name.as_slice())?;
        match out.push(name) {
            Ok(()) => {}
            Err(_) => return Err(NoMemory),
        }
    }
    Ok(Rows::from_vec(out))
}

fn copy_of(alloc: Global, parent: &Parent) -> Result<Parent, NoMemory>
    ensures { IfOk result (λ p. p ≡ parent.now) }
{
    match parent {
        Parent::Reference(name) => Ok(Parent::Reference(name.copy(alloc)?)),
        Parent::Leaf(name) => Ok(Parent::Leaf(name.copy(alloc)?)),
    }
}

fn copies(alloc: Global, parents: &[Parent]) -> Result<Rows<Parent>, NoMemory>
    ensures { IfOk result (λ ps. ps ≡ parents.now) }
{
    let mut out = Rows::begin(alloc);
    for parent in parents {
        out.push(copy_of(alloc, parent)?)?;
    }
    Ok(out)
}

fn leaves_from(alloc: Global, entries: Rows<Entry>, root: usize) -> Result<Rows<Bytes>, NoMemory>
    requires { root < length entries }
    ensures { IfOk result (λ names. (e : EntryOf) → slice_get entries root ≡ Some e → AreEntryLeaves entries e names) }
{
    let mut todo = copies(alloc, entries.at(root).parents.as_slice())?;
    let mut table = build_table(alloc, entries)?;
    let names = reach(alloc, &mut table, &mut todo)?;
    in_order(alloc, names)
}

fn root_of(entries: &[Entry]) -> Option<usize>
    ensures root { MatchOption result (HasNoRoot entries.now) (λ at. (e : EntryOf) → slice_get entries.now at ≡ Some e → IsEntryRoot entries.now e) }
    ensures within { IfSome result (λ at. at < length entries.now) }
{
    for (at, entry) in entries.iter().enumerate() {
        if entry.refutes {
            return Some(at);
        }
    }
    None
}

/// The names of the leaves that are reached from the first statement that refutes, where there is one.
pub fn leaves(alloc: Global, entries: Rows<Entry>) -> Result<Option<Rows<Bytes>>, NoMemory>
    ensures { IfOk result (FindsLeaves entries) }
{
    match root_of(entries.as_slice()) {
        None => Ok(None),
        Some(root) => Ok(Some(leaves_from(alloc, entries, root)?)),
    }
}
