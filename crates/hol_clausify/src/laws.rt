ghost use Rattle.hol_clausify.specs.Laws.{KnownStays, OpensAgain, PutUnder, ExpandsUnder, ReadsBack, Reopens, ChosenExpands, ExpandedStands, ChoiceStands, ChosenShown, ClosedOverTyped};
ghost use Rattle.hol_clausify.specs.Shown.{RefutedIsWalked};

use hol_formulas::Formula;
use hol_terms::{Sig, Term, Ty};
use lambda_lift::{Aux, Table};
use text_kit::Rows;

/// What a table knows is expanded to the same over each longer one.
pub fn known_stays(table: &Table, more: &Rows<Aux>, t: &Term)
    ensures { KnownStays table.now more.now t.now }
{}

/// Binding a variable and putting it in again changes nothing.
pub fn opens_again(n: u64, ty: &Ty, t: &Term)
    ensures { OpensAgain n ty.now t.now }
{}

/// The part of a quantified formula for a value is its body with the value as the innermost term of the scope.
pub fn put_under(scope: &Rows<Term>, value: &Term, body: &Term)
    ensures { PutUnder scope.now value.now body.now }
{}

/// That part, expanded, is the part of the expanded formula for the expanded value.
pub fn expands_under(table: &Table, body: &Term, value: &Term)
    ensures { ExpandsUnder table.now body.now value.now }
{}

/// A formula tells the term that it was read from.
pub fn reads_back(t: &Term)
    ensures { ReadsBack t.now }
{}

/// A closed term applied to its variables is the term that it was made of, but for redexes at these paths.
pub fn reopens(variables: &Rows<(u64, Ty)>, t: &Term)
    ensures { Reopens variables.now t.now }
{}

/// A chosen term stands for its closed term applied to its variables, as long as the table only grows.
pub fn chosen_expands(table: &Table, ty: &Ty, property: &Term, more: &Rows<Aux>)
    ensures { ChosenExpands table.now ty.now property.now more.now }
{}

/// What is expanded over a table whose entries stand alone may stand in the kernel: it keeps its type, and has no auxiliary constant.
pub fn expanded_stands(sig: &Sig, table: &Table, t: &Term, ty: &Ty)
    ensures { ExpandedStands sig.now table.now t.now ty.now }
{}

/// The closed term of a choice stands alone, where the numbers of the property's variables tell their types.
pub fn choice_stands(table: &Table, types: &Rows<Ty>, ty: &Ty, property: &Term)
    ensures { ChoiceStands table.now types.now ty.now property.now }
{}

/// A chosen term stands for the chosen value that the kernel has of the expanded property, as long as the table only grows.
pub fn chosen_is_shown(table: &Table, ty: &Ty, property: &Term, more: &Rows<Aux>)
    ensures { ChosenShown table.now ty.now property.now more.now }
{}

/// The walk over the kernel's formula at a place gives the clauses of `formula_clauses`' walk, expanded, and the same numbers of
/// variables: over the table behind the walk, and over each longer one.
pub fn refuted_is_walked(
    f: &Formula,
    positive: bool,
    types: &Rows<Ty>,
    next: u64,
    table: &Table,
    scope: &Rows<Term>,
    more: &Rows<Aux>,
)
    ensures { RefutedIsWalked f.now positive types.now next table.now scope.now more.now }
{}

/// A closed term over variables, and its application to them, have their types.
pub fn closed_over_typed(sig: &Sig, variables: &Rows<(u64, Ty)>, t: &Term, ty: &Ty)
    ensures { ClosedOverTyped sig.now variables.now t.now ty.now }
{}
