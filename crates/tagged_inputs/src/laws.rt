ghost use Rattle.tagged_inputs.specs.Encodings.{ClausesAreEncoded};

use goal_search::Clauses;
use hol_terms::Sig;
use lambda_lift::Table;

/// Clauses that are typed over a table whose entries stand alone are tagged once they are encoded over the signs that occur in them, and
/// stand for the clauses with their auxiliary constants expanded. It does nothing: its contract is the law.
pub fn clauses_are_encoded(sig: &Sig, table: &Table, clauses: &Clauses)
    ensures { ClausesAreEncoded sig.now table.now clauses.now }
{}
