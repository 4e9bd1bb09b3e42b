ghost use Rattle.std.specs.Prelude.{◌≡◌, ◌+◌, true, IfOk, OnOk};
ghost use Rattle.hol_terms.specs.declared.term.Term.{roll-Term};
ghost use Rattle.hol_terms.specs.declared.term.Term.TheOpen.{Term-F};
ghost use Rattle.lambda_lift.specs.Tables.{place, expand as expanded};
ghost use Rattle.formula_clauses.specs.Choices.{put_in as put_in_all, variables as variables_of, choice as choice_of, with_choice};
ghost use Rattle.formula_clauses.specs.Walks.{property as property_of, opened, chosen_value, is_universal as universal};
ghost use Rattle.formula_clauses.specs.inner.Scopes.{scope_terms};
ghost use Rattle.formula_clauses.specs.inner.Measures.{progress, Opens, IsOpened, SmallVariables};

use crate::closing::{apply_to, close, closed_ty};
use crate::fault::ClauseFault;
use crate::scope::{Scope, put_in};
use crate::sizes::left_by_expanded;
use crate::variables::{Variable, variables_in};
use hol_formulas::Quantifier;
use hol_terms::{Konst, Term, Ty, copy_ty};
use kernel_rules::{apply, lambda, negation};
use lambda_lift::{Table, expand};
use std::alloc::Global;
use text_kit::{NoMemory, Rows, Shared};

/// The nodes that a closed term may have, but for its lambdas and the two nodes of the choice.
const MOST_IN_PROPERTY: u64 = 2_046;

/// The term put for a quantifier's variable, and the number of the next variable.
#[derive(Drop)]
pub struct Opened {
    pub value: Shared<Term>,
    pub next: u64,
}

/// The property's closed term.
fn choice(
    alloc: Global,
    table: &Table,
    ty: &Ty,
    f: &Term,
    vs: &Rows<Variable>,
) -> Result<Term, NoMemory>
    requires { vs.now ≡ variables_of f.now }
    ensures { IfOk result (λ r. r ≡ choice_of table.now ty.now f.now) }
{
    let shown = expand(alloc, table, f)?;
    let chosen = apply(alloc, Term::Con(Konst::Eps(copy_ty(ty)?)), shown)?;
    close(alloc, vs.as_slice(), &chosen)
}

/// The number of the property's closed term.
fn number(
    alloc: Global,
    table: &mut Table,
    ty: &Ty,
    f: &Term,
    vs: &Rows<Variable>,
) -> Result<u64, NoMemory>
    requires { vs.now ≡ variables_of f.now }
    ensures number { IfOk result (λ k. k ≡ place table.old (choice_of table.old ty.now f.now)) }
    ensures table { OnOk result (table.new ≡ with_choice table.old ty.now f.now) }
{
    let closed = choice(alloc, &*table, ty, f, vs)?;
    let whole_ty = closed_ty(alloc, vs.as_slice(), ty)?;
    table.put(&whole_ty, &closed)
}

/// The variables of a property whose closed term is small.
///
/// The closed term is counted before anything of it is made.
fn small_variables(
    alloc: Global,
    table: &Table,
    ty: &Ty,
    f: &Term,
) -> Result<Rows<Variable>, ClauseFault>
    ensures { SmallVariables table.now ty.now f.now result }
{
    let Some(left) = left_by_expanded(table, f, MOST_IN_PROPERTY) else {
        return Err(ClauseFault::TooLarge);
    };
    let vs = variables_in(alloc, f)?;
    if vs.len() as u64 > left {
        return Err(ClauseFault::TooLarge);
    }
    Ok(vs)
}

/// The chosen term of a property with these variables.
fn chosen(
    alloc: Global,
    table: &mut Table,
    ty: &Ty,
    f: &Term,
    vs: &Rows<Variable>,
    next: u64,
) -> Result<Opened, NoMemory>
    requires { vs.now ≡ variables_of f.now }
    ensures { IfOk result (λ r. IsOpened (chosen_value ty.now f.now (progress next table.old)) r table.new) }
{
    let k = number(alloc, table, ty, f, vs)?;
    let term = apply_to(alloc, Term::Con(Konst::Aux(k)), vs.as_slice())?;
    let value = Shared::new(alloc, term)?;
    Ok(Opened { value, next })
}

/// The chosen term of a property, where its closed term is small.
fn choose_small(
    alloc: Global,
    table: &mut Table,
    ty: &Ty,
    f: &Term,
    next: u64,
) -> Result<Opened, ClauseFault>
    ensures { Opens (chosen_value ty.now f.now (progress next table.old)) result table.new }
{
    let vs = small_variables(alloc, &*table, ty, f)?;
    Ok(chosen(alloc, table, ty, f, &vs, next)?)
}

/// The chosen term of a property.
fn choose(
    alloc: Global,
    table: &mut Table,
    ty: &Ty,
    f: &Term,
    next: u64,
) -> Result<Opened, NoMemory>
    ensures { IfOk result (λ r. IsOpened (chosen_value ty.now f.now (progress next table.old)) r table.new) }
{
    let vs = variables_in(alloc, f)?;
    chosen(alloc, table, ty, f, &vs, next)
}

/// What a chosen value has to have: the body, or its negation.
fn property(alloc: Global, quantifier: Quantifier, ty: &Ty, body: Term) -> Result<Term, NoMemory>
    ensures { IfOk result (λ r. r ≡ property_of quantifier ty.now body) }
{
    match quantifier {
        Quantifier::All => lambda(alloc, copy_ty(ty)?, negation(alloc, &body)?),
        Quantifier::Ex => lambda(alloc, copy_ty(ty)?, body),
    }
}

fn is_universal(quantifier: Quantifier, positive: bool) -> bool
    ensures { result ≡ universal quantifier positive }
{
    match quantifier {
        Quantifier::All => positive,
        Quantifier::Ex => !positive,
    }
}

/// The next variable.
fn next_variable(alloc: Global, ty: &Ty, next: u64) -> Result<Opened, NoMemory>
    ensures value { IfOk result (λ o. o.value ≡ roll-Term (Term-F.Free next ty.now)) }
    ensures next { IfOk result (λ o. o.next ≡ next + 1) }
{
    match next.checked_add(1) {
        Some(more) => Ok(Opened {
            value: Shared::new(alloc, Term::Free(next, copy_ty(ty)?))?,
            next: more,
        }),
        None => Err(NoMemory),
    }
}

/// The property of a quantifier's chosen value, with the scope's terms in it.
fn property_in(
    alloc: Global,
    quantifier: Quantifier,
    ty: &Ty,
    body: &Term,
    scope: &Scope,
) -> Result<Term, NoMemory>
    ensures { IfOk result (λ r. r ≡ property_of quantifier ty.now (put_in_all (scope_terms scope.now) body.now 1)) }
{
    let inner = put_in(alloc, body, &*scope, 1)?;
    property(alloc, quantifier, ty, inner)
}

/// The term put for the variable of a quantifier with this sign, where its closed term is small.
pub fn open_small(
    alloc: Global,
    quantifier: Quantifier,
    ty: &Ty,
    body: &Term,
    positive: bool,
    scope: &Scope,
    next: u64,
    table: &mut Table,
) -> Result<Opened, ClauseFault>
    ensures { Opens (opened quantifier ty.now body.now positive (scope_terms scope.now) (progress next table.old)) result table.new }
{
    if is_universal(quantifier, positive) {
        return Ok(next_variable(alloc, ty, next)?);
    }
    let property = property_in(alloc, quantifier, ty, body, &*scope)?;
    choose_small(alloc, table, ty, &property, next)
}

/// The term put for the variable of a quantifier with this sign.
pub fn open(
    alloc: Global,
    quantifier: Quantifier,
    ty: &Ty,
    body: &Term,
    positive: bool,
    scope: &Scope,
    next: u64,
    table: &mut Table,
) -> Result<Opened, NoMemory>
    ensures { IfOk result (λ r. IsOpened (opened quantifier ty.now body.now positive (scope_terms scope.now) (progress next table.old)) r table.new) }
{
    if is_universal(quantifier, positive) {
        return next_variable(alloc, ty, next);
    }
    let property = property_in(alloc, quantifier, ty, body, &*scope)?;
    choose(alloc, table, ty, &property, next)
}
