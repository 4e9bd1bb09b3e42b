ghost use Rattle.std.specs.Prelude.{◌≡◌, ◌↔◌, ◌-◌, ◌^◌, ◌<◌, IsTrue, IfOk, IfSome, MatchOption};
ghost use Rattle.fo_terms.specs.Weight.{clause_size};
ghost use Rattle.fo_infer.specs.Subsumption.{Subsumes};

use crate::covering::covers;
use fo_cells::{Binds, FlatClause};
use fo_terms::Clause;
use std::alloc::Global;
use std::marker::Model;
use text_kit::NoMemory;

/// The most steps of a test. A step looks at one cell of the clause that may subsume, or at the end of one of its literals.
pub const MOST_STEPS: u32 = 2_000;

/// A clause that is tested for subsuming others, which contracts see as the list of its literals. It takes 16 bytes for each symbol and variable.
#[derive(Debug, Drop)]
pub struct Subsumer {
    clause: FlatClause,
}

impl Model for Subsumer {
    ghost use Rattle.std.specs.Prelude.{List};
    ghost use Rattle.std.specs.Coded.{coded_list};
    ghost use Rattle.fo_terms.specs.contracts.literal.Literal as literal;
    ghost use Rattle.fo_terms.specs.declared.literal.Literal.{Literal};

    ghost Value = { List Literal };

    ghost coded = { coded_list literal.the_row.coded };

    ghost view = { λ it. it.clause };
}

impl Subsumer {
    /// Prepares a clause, or answers `None` where a term of it has more than 65,535 symbols and variables.
    pub fn of(alloc: Global, c: &Clause) -> Result<Option<Subsumer>, NoMemory>
        ensures { IfOk result (λ made. MatchOption made (2 ^ 16 - 1 < clause_size c.now) (λ s. s ≡ c.now.literals)) }
    {
        match FlatClause::of(alloc, c)? {
            Some(clause) => Ok(Some(Subsumer { clause })),
            None => Ok(None),
        }
    }

    /// Whether it subsumes the clause; or `None`, which tells nothing, where `MOST_STEPS` steps don't suffice. It takes no memory.
    ///
    /// Its literals are matched one after another with each literal of the clause, under the bindings of those before. At a variable's first place
    /// the subterm there is what it stands for, and is skipped; at a later place the two are compared. Where a literal can't be matched, the search
    /// goes back to the one before. (Stillman's algorithm: R. B. Stillman, "The concept of weak substitution in theorem-proving", 1973.)
    pub fn tries(&self, d: &FlatClause) -> Option<bool>
        ensures { IfSome result (λ b. IsTrue b ↔ Subsumes (record { literals = self.now }) (record { literals = d.now })) }
    {
        if self.clause.len() > d.len() {
            return Some(false);
        }
        let mut steps = MOST_STEPS;
        covers(&self.clause, 0, d, &Binds::Nothing, &mut steps)
    }
}
