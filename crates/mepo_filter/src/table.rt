ghost use Rattle.std.specs.Prelude.{◌≡◌, ◌<◌, ℕ, length, slice_index, OnOk};

use text_kit::NoMemory;

/// Makes a table of numbers by constant long enough for a constant. The new ones are 0, as all beyond it are taken to be.
pub(crate) fn reach(table: &mut Vec<u32>, constant: u32) -> Result<(), NoMemory>
    ensures long { OnOk result (constant < length table.new.items) }
    ensures same { (c : ℕ) → slice_index table.new.items c ≡ slice_index table.old.items c }
{
    let at = constant as usize;
    if at < table.len() {
        return Ok(());
    }
    match table.resize(at + 1, 0) {
        Ok(()) => Ok(()),
        Err(_) => Err(NoMemory),
    }
}
