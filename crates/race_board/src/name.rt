use std::marker::Brand;
use std::sync::ledger::Ledger;

/// Which race it is. Each call of a program picks its terms.
pub trait Name: Ledger {
    ghost use Rattle.race_board.specs.Ends.{Terms};

    /// What is fixed of the race before it begins.
    ghost terms: { Terms };
}

// Any terms: they are never used, since each call picks its own.
impl Name for Brand {
    ghost use Rattle.std.specs.Prelude.{[], None, Some, false};

    ghost terms = { record { key = []; orders = []; limit = None; children = λ id. record { whole = None; sound = false }; first = record { starts = 0; orders = None; kills = []; waits = []; faults = 0; last = 0 } } };
}
