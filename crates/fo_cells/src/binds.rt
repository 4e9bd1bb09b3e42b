ghost use Rattle.std.specs.Prelude.{◌≡◌, ℕ, MatchOption};
ghost use Rattle.fo_terms.specs.declared.term.FoTerm.{FoTerm};
ghost use Rattle.fo_cells.specs.Cells.{cells_of};
ghost use Rattle.fo_cells.specs.Binds.{Agrees, IsFree, binds_of};

use crate::Cell;

/// The variables that stand for cells, the latest first. Each may live on the stack of the call that binds it: nothing is allocated.
#[derive(Clone, Copy)]
pub enum Binds<'a> {
    /// no variable stands for anything
    Nothing,
    /// the variable stands for these cells, and besides it those of the rest
    More(u64, &'a [Cell], &'a Binds<'a>),
}

/// The cells that the variable stands for.
pub fn bound<'a>(binds: &Binds<'a>, x: u64) -> Option<&'a [Cell]>
    ensures { MatchOption result (IsFree x (binds_of binds.now)) (λ cells. (v : ℕ → FoTerm) → Agrees v (binds_of binds.now) → cells_of (v x) ≡ cells.now) }
{
    match binds {
        Binds::Nothing => None,
        Binds::More(y, cells, rest) => {
            if *y == x {
                Some(*cells)
            } else {
                bound(*rest, x)
            }
        }
    }
}
