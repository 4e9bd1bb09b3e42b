ghost use Rattle.std.specs.Prelude.{◌≡◌, [], ◌∷◌, ◌++◌, ◌<◌, length, take, slice_set, IfOk, OnOk, OnErr};

use crate::Cell;
use std::alloc::Global;
use std::marker::Model;
use text_kit::NoMemory;

/// A growing row of cells, which contracts see as their list.
#[derive(Debug, Drop)]
pub struct Cells {
    items: Vec<Cell>,
}

impl Model for Cells {
    ghost use Rattle.std.specs.Prelude.{List};
    ghost use Rattle.fo_cells.specs.declared.cell.Cell.{Cell};

    ghost Value = { List Cell };

    ghost view = { λ it. it.items.items };
}

impl Cells {
    /// No cells. It takes no memory.
    pub fn begin(alloc: Global) -> Cells
        ensures { result ≡ [] }
    {
        Cells {
            items: Vec::new(alloc),
        }
    }

    /// Appends a cell. A refused push leaves the row as it was.
    pub fn push(&mut self, cell: Cell) -> Result<(), NoMemory>
        ensures ok { OnOk result (self.new ≡ self.old ++ cell ∷ []) }
        ensures err { OnErr result (self.new ≡ self.old) }
    {
        match self.items.push(cell) {
            Ok(()) => Ok(()),
            Err(_) => Err(NoMemory),
        }
    }

    /// Appends cells. A refused call leaves the row as it was.
    pub fn append(&mut self, cells: &[Cell]) -> Result<(), NoMemory>
        ensures ok { OnOk result (self.new ≡ self.old ++ cells.now) }
        ensures err { OnErr result (self.new ≡ self.old) }
    {
        match self.items.extend_from_slice(cells) {
            Ok(()) => Ok(()),
            Err(_) => Err(NoMemory),
        }
    }

    /// Appends one row of cells and then another. A refused call leaves the row as it was.
    pub fn append_both(&mut self, first: &[Cell], second: &[Cell]) -> Result<(), NoMemory>
        ensures ok { OnOk result (self.new ≡ self.old ++ (first.now ++ second.now)) }
        ensures err { OnErr result (self.new ≡ self.old) }
    {
        let start = self.items.len();
        self.append(first)?;
        match self.append(second) {
            Ok(()) => Ok(()),
            Err(NoMemory) => {
                self.cut(start);
                Err(NoMemory)
            }
        }
    }

    /// Puts a cell in the place of another.
    pub fn set(&mut self, at: usize, cell: Cell)
        requires { at < length self.old }
        ensures { self.new ≡ slice_set self.old at cell }
    {
        self.items[at] = cell;
    }

    /// Takes out all cells behind the first `keep`, and keeps their room.
    pub fn cut(&mut self, keep: usize)
        ensures { self.new ≡ take keep self.old }
    {
        self.items.truncate(keep);
    }

    /// Takes out all cells, and keeps their room.
    pub fn clear(&mut self)
        ensures { self.new ≡ [] }
    {
        self.items.clear();
    }

    /// The number of cells.
    pub fn len(&self) -> usize
        ensures { result ≡ length self.now }
    {
        self.items.len()
    }

    /// Lends the cells.
    pub fn as_slice(&self) -> &[Cell]
        ensures { result.now ≡ self.now }
    {
        self.items.as_slice()
    }

    /// A second row of the same cells, of exactly their room.
    pub fn copy(&self, alloc: Global) -> Result<Cells, NoMemory>
        ensures { IfOk result (λ it. it ≡ self.now) }
    {
        match Vec::from_slice(alloc, self.items.as_slice()) {
            Ok(items) => Ok(Cells { items }),
            Err(_) => Err(NoMemory),
        }
    }
}
