ghost use Rattle.std.specs.Prelude.{◌≡◌, ◌++◌, IfOk, OnOk};
ghost use Rattle.fol_cnf.specs.Clausified.{clausified, named, all_clauses, Clausifies};
ghost use Rattle.fol_cnf.specs.inner.Listings.{Lists};

use crate::depth::are_shallow;
use crate::fault::CnfFault;
use crate::fitting::all_fit;
use crate::lists::Clauses;
use crate::named_clause::NamedClause;
use crate::progress::Progress;
use crate::scope::Scope;
use crate::walking::{Listed, list};
use fo_terms::{Clause, FoFormula};
use std::alloc::Global;
use text_kit::{NoMemory, Rows};
use tptp_syntax::{Problem, Statement};

/// The clauses of a statement whose new symbols begin with this number.
fn list_statement(
    alloc: Global,
    f: &FoFormula,
    conjecture: bool,
    symbols: u64,
) -> Result<Listed, NoMemory>
    ensures { IfOk result (λ r. Lists (clausified f.now conjecture symbols) r) }
{
    let start = Progress {
        variable: 0,
        symbol: symbols,
    };
    list(alloc, f, !conjecture, &Scope::Outside, start)
}

/// Appends the clauses with the number of their statement.
fn put_named(out: &mut Rows<NamedClause>, clauses: Clauses, statement: u32) -> Result<(), NoMemory>
    ensures { OnOk result (out.new ≡ out.old ++ named statement clauses) }
{
    for literals in clauses.into_vec() {
        out.push(NamedClause {
            clause: Clause { literals },
            statement,
        })?;
    }
    Ok(())
}

/// The clauses of all statements, in order.
fn make_all(
    alloc: Global,
    statements: &[Statement],
    symbols: u64,
) -> Result<Rows<NamedClause>, NoMemory>
    ensures { IfOk result (λ cs. cs ≡ all_clauses 0 symbols statements.now) }
{
    let mut out = Rows::begin(alloc);
    let mut statement = 0u32;
    let mut next = symbols;
    for s in statements {
        let listed = list_statement(alloc, &s.formula, s.conjecture, next)?;
        put_named(&mut out, listed.clauses, statement)?;
        next = listed.after.symbol;
        match statement.checked_add(1) {
            Some(more) => statement = more,
            None => return Err(NoMemory),
        }
    }
    Ok(out)
}

/// The clauses of a problem's statements, one after another in their order, each with its statement's number.
///
/// The conjecture is negated. The variables of each statement's clauses are numbered from 0 in the order of the walk over its formula;
/// a chosen value is a new symbol, applied to the variables that occur in the quantified formula, ascending. New symbols are numbered
/// behind the problem's own through all statements. Every formula is to be closed, as those that are read are: a free variable stands
/// for itself, and isn't told from those that the walk numbers.
///
/// `TooLarge` comes exactly where a statement has above 1,024 clauses, a list made on the way has, or the walk meets one place of its
/// formula more than 1,024 times. All of it is counted before a clause is made. The walks recurse once a level of the
/// formula; one with more than 4,400 levels is want of memory.
///
/// The method is the distribution by cases of Nonnengart and Weidenbach, "Computing small clause normal forms" (2001), without renaming.
pub fn cnf(alloc: Global, problem: &Problem) -> Result<Rows<NamedClause>, CnfFault>
    ensures { Clausifies problem.now result }
{
    let statements = problem.statements.as_slice();
    if !all_fit(statements) {
        return Err(CnfFault::TooLarge);
    }
    if !are_shallow(statements) {
        return Err(CnfFault::NoMemory);
    }
    let symbols = problem.names.len() as u64;
    Ok(make_all(alloc, statements, symbols)?)
}
