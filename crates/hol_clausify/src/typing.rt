ghost use Rattle.hol_clausify.specs.Typed.{ClausesAreTyped};

use hol_terms::{Sig, Term};
use lambda_lift::Table;

/// The clauses of a sentence over a table whose entries stand alone may be encoded over the table behind them, whose entries stand
/// alone, too, and which has the old ones first. It does nothing: its contract is the law.
pub fn clauses_are_typed(sig: &Sig, table: &Table, formula: &Term, goal: bool)
    ensures { ClausesAreTyped sig.now table.now formula.now goal }
{}
