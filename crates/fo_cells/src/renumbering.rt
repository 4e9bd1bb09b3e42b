ghost use Rattle.std.specs.Prelude.{◌≡◌, ◌==◌, [], ◌∷◌, map, OnOk};
ghost use Rattle.std.specs.List.{list_any};
ghost use Rattle.fo_terms.specs.Normal.{firsts, place_of};
ghost use Rattle.fo_terms.specs.inner.Gathered.{added, all_added};
ghost use Rattle.fo_cells.specs.inner.Seen.{cell_variables, cell_numbered};

use crate::{Cell, Cells};
use text_kit::NoMemory;

fn is_noted(noted: &[u64], x: u64) -> bool
    ensures { result ≡ list_any (λ y. y == x) noted.now }
{
    for y in noted {
        if *y == x {
            return true;
        }
    }
    false
}

/// Appends the number where it isn't there yet.
fn note(noted: &mut Vec<u64>, x: u64) -> Result<(), NoMemory>
    ensures { OnOk result (noted.new.items ≡ added ◌==◌ noted.old.items x) }
{
    if is_noted(noted.as_slice(), x) {
        return Ok(());
    }
    match noted.push(x) {
        Ok(()) => Ok(()),
        Err(_) => Err(NoMemory),
    }
}

/// Notes the variables of a cell.
fn note_cell(noted: &mut Vec<u64>, cell: &Cell) -> Result<(), NoMemory>
    ensures { OnOk result (noted.new.items ≡ all_added ◌==◌ noted.old.items (cell_variables (cell.now ∷ []))) }
{
    match cell {
        Cell::Var(x) => note(noted, *x),
        Cell::Fun { .. } => Ok(()),
    }
}

/// Notes the variables in the order of their first occurrence, in place of what was noted.
pub fn gather(cells: &[Cell], noted: &mut Vec<u64>) -> Result<(), NoMemory>
    ensures { OnOk result (noted.new.items ≡ firsts ◌==◌ (cell_variables cells.now)) }
{
    noted.clear();
    for cell in cells {
        note_cell(noted, cell)?;
    }
    Ok(())
}

/// The first place of the number, or the list's length.
fn place(noted: &[u64], x: u64) -> u64
    ensures { result ≡ place_of x noted.now }
{
    for i in 0..noted.len() {
        if noted[i] == x {
            return i as u64;
        }
    }
    noted.len() as u64
}

fn numbered_cell(noted: &[u64], cell: Cell) -> Cell
    ensures { result ≡ cell_numbered noted.now cell }
{
    match cell {
        Cell::Var(x) => Cell::Var(place(noted, x)),
        Cell::Fun {
            arity,
            size,
            symbol,
        } => Cell::Fun {
            arity,
            size,
            symbol,
        },
    }
}

/// Gives each variable the number of its place.
pub fn renumber(cells: &mut Cells, noted: &[u64])
    ensures { cells.new ≡ map (cell_numbered noted.now) cells.old }
{
    for i in 0..cells.len() {
        let cell = cells.as_slice()[i];
        cells.set(i, numbered_cell(noted, cell));
    }
}
