ghost use Rattle.std.specs.Prelude.{◌≡◌, ◌++◌, IfOk, OnOk, codes, map};
ghost use Rattle.slot_work.specs.inner.Lookups.{is_named, FindsNames, AddsName};

use std::alloc::Global;
use text_kit::{Bytes, NoMemory, Rows};
use theory_terms::Names;

/// Whether a name is in the table.
pub fn is_in(table: &Names, name: &[u8]) -> bool
    ensures { result ≡ is_named table.now name.now }
{
    table.place(name).is_some()
}

/// Adds a name where it isn't there yet.
fn add_new<'n>(table: &mut Names<'n>, name: &'n [u8]) -> Result<(), NoMemory>
    ensures { OnOk result (AddsName table.old table.new name.now) }
{
    match table.place(name) {
        Some(_) => Ok(()),
        None => table.add(name),
    }
}

/// A table of leaves.
pub fn table_of<'n>(alloc: Global, leaves: &'n [Bytes]) -> Result<Names<'n>, NoMemory>
    ensures { IfOk result (FindsNames leaves.now) }
{
    let mut table = Names::begin(alloc);
    for leaf in leaves {
        add_new(&mut table, leaf.as_slice())?;
    }
    Ok(table)
}

/// The name that a fact has in problem texts.
pub fn leaf_name(alloc: Global, name: &[u8]) -> Result<Bytes, NoMemory>
    ensures { IfOk result (λ leaf. leaf ≡ codes "f_" ++ name.now) }
{
    let mut leaf = Bytes::from_slice(alloc, b"f_")?;
    leaf.append(name)?;
    Ok(leaf)
}
