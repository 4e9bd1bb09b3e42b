ghost use Rattle.std.specs.Prelude.{◌≡◌, ◌+◌, ◌<◌, ◌≤◌, [], ◌∷◌, ◌++◌, List, length, IfOk};
ghost use Rattle.fo_cells.specs.declared.cell.Cell.{Cell};
ghost use Rattle.fo_cells.specs.declared.cell.Cell.TheVariants.{Fun};
ghost use Rattle.fo_light.specs.inner.Opened.{Opened};

use fo_cells::{Cell, Cells};
use text_kit::NoMemory;

/// The most cells that are written.
pub const ROOM: usize = 512;

/// Appends the cell of a symbol, whose size is set once its arguments stand behind it. It is left out where they have no room.
pub fn open(symbol: u64, count: usize, out: &mut Cells) -> Result<bool, NoMemory>
    requires { length out.old ≤ 512 }
    ensures { IfOk result (λ r. Opened out.old symbol count r out.new) }
{
    if count >= ROOM - out.len() {
        return Ok(false);
    }
    out.push(Cell::Fun {
        arity: count as u16,
        size: 0,
        symbol,
    })?;
    Ok(true)
}

/// Sets the size of a symbol whose arguments stand behind it.
pub fn close(at: usize, symbol: u64, count: usize, out: &mut Cells)
    requires room { length out.old ≤ 512 }
    requires place { at < length out.old }
    requires count { count < 512 }
    ensures { (before args : List Cell) → length before ≡ at → out.old ≡ (before ++ Fun count 0 symbol ∷ []) ++ args → out.new ≡ before ++ Fun count (length args + 1) symbol ∷ args }
{
    let size = out.len() - at;
    out.set(
        at,
        Cell::Fun {
            arity: count as u16,
            size: size as u16,
            symbol,
        },
    );
}
