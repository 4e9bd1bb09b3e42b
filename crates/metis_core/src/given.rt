ghost use Rattle.std.specs.Prelude.{◌≡◌};
ghost use Rattle.metis_core.specs.Reach.{plain};

use fo_terms::Clause;
use text_kit::Rows;

/// The positions of a clause into which an equation may be put.
#[derive(Clone, Copy, Debug, Drop, PartialEq, Eq)]
pub enum Positions {
    /// those of tags on cores that are no variables
    Tagged,
    /// those of all subterms that are no variables, but for whole atoms that are no equations
    Plain,
}

/// Whether the positions are those of all subterms.
pub fn is_plain(positions: Positions) -> bool
    ensures { result ≡ plain positions }
{
    match positions {
        Positions::Tagged => false,
        Positions::Plain => true,
    }
}

/// What a search is given.
#[derive(Debug, Drop)]
pub struct Given {
    /// the clauses that it begins with
    pub inputs: Rows<Clause>,
    /// how many picks it may make
    pub budget: u32,
    /// each pick whose number this divides takes the oldest clause
    pub age: u32,
    /// the positions into which equations are put
    pub positions: Positions,
}
