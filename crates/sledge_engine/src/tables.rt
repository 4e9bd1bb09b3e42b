ghost use Rattle.std.specs.Prelude.{◌≡◌, IfOk, OnOk, map};
ghost use Rattle.sledge_engine.specs.Choice.{is_named};
ghost use Rattle.sledge_engine.specs.inner.Lookups.{Adds, Finds};

use std::alloc::Global;
use text_kit::NoMemory;
use theory_terms::Names;

/// Whether a name is in the table.
pub(crate) fn is_in(table: &Names, name: &[u8]) -> bool
    ensures { result ≡ is_named table.now name.now }
{
    table.place(name).is_some()
}

/// Adds a name where it isn't there yet.
fn add_new<'n>(table: &mut Names<'n>, name: &'n [u8]) -> Result<(), NoMemory>
    ensures { OnOk result (Adds table.old table.new name.now) }
{
    match table.place(name) {
        Some(_) => Ok(()),
        None => table.add(name),
    }
}

/// A table of words.
pub(crate) fn table_of<'w>(alloc: Global, words: &[&'w str]) -> Result<Names<'w>, NoMemory>
    ensures { IfOk result (Finds (map (λ w. w.now) words.now)) }
{
    let mut table = Names::begin(alloc);
    for word in words {
        add_new(&mut table, (*word).as_bytes())?;
    }
    Ok(table)
}
