ghost use Rattle.lambda_lift.specs.Laws.{KeysTell, BodyIsFormula, EquationsHold};
ghost use Rattle.lambda_lift.specs.Standing.{LiftedStands};
ghost use Rattle.lambda_lift.specs.Views.{stage};

use crate::{Aux, Table};
use hol_terms::{Sig, Term};
use text_kit::Rows;

/// No two terms have one key, so the table holds each closed term once.
pub fn keys_tell(s: &Term, t: &Term)
    ensures { KeysTell s.now t.now }
{}

/// The expanded body is the formula up to contractions at the paths that the two terms tell.
///
/// A step of the kernel for each of these paths leads from the formula to the expanded body.
pub fn body_is_formula(sig: &Sig, table: &Table, formula: &Term)
    ensures { BodyIsFormula sig.now table.now formula.now }
{}

/// The sides of a lifted equation, expanded, are equal up to contractions: at the paths of its own redexes, and then at
/// those of its left side, where the constant has become its closed term.
///
/// So a step of the kernel for each of these paths leads from an equation of a term with itself, under quantifiers, to
/// the expanded equation.
pub fn equations_hold(
    sig: &Sig,
    table: &Table,
    met: &Rows<u64>,
    number: u64,
    entry: &Aux,
    more: &Rows<Aux>,
)
    ensures { EquationsHold sig.now (stage table.now met.now) number entry.now more.now }
{}

/// What a lift gives stands over the table that it leaves: the body and each equation is a formula of the signature and
/// that table without free variables, and each of the table's entries stands alone, where the old ones did.
///
/// So the table may be lifted over again, and the formulas be taken by calls that want this of them.
pub fn lifted_stands(sig: &Sig, table: &Table, formula: &Term)
    ensures { LiftedStands sig.now table.now formula.now }
{}
