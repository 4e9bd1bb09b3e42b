ghost use Rattle.std.specs.Prelude.{◌≡◌, ◌-◌, [], ◌∷◌, codes, length, IfOk, OnOk};
ghost use Rattle.hol_terms.specs.declared.ty.Ty.{out-Ty};
ghost use Rattle.lambda_lift.specs.Scopes.{scope_types};
ghost use Rattle.lambda_lift.specs.Closing.{ty_at};
ghost use Rattle.lambda_lift.specs.Equations.{result_at};
ghost use Rattle.tptp_print.specs.Pages.{word, type_number, pieces};
ghost use Rattle.tptp_print.specs.Terms.{variable, tagged, part};

use crate::konst::{konst_ty, put_konst};
use crate::page::Page;
use hol_terms::{Term, Ty, arrow, copy_ty};
use lambda_lift::{Aux, Scope, nth};
use std::alloc::Global;
use text_kit::NoMemory;
use theory_reader::Decl;

/// The number of quantifiers around a place.
pub fn depth(scope: &Scope) -> Result<u64, NoMemory>
    ensures { IfOk result (λ n. n ≡ length (scope_types scope.now)) }
{
    match scope {
        Scope::Outside => Ok(0),
        Scope::Under(_, rest) => match depth(*rest)?.checked_add(1) {
            Some(n) => Ok(n),
            None => Err(NoMemory),
        },
    }
}

/// Writes the variable of the quantifier that has `n` quantifiers around it.
pub fn put_variable(page: &mut Page, n: u64) -> Result<(), NoMemory>
    ensures { OnOk result (page.new ≡ variable n page.old) }
{
    page.put(b"X")?;
    page.put_number(n)
}

fn put_index(page: &mut Page, scope: &Scope, i: u64) -> Result<(), NoMemory>
    ensures { OnOk result (page.new ≡ variable (length (scope_types scope.now) - 1 - i) page.old) }
{
    let around = depth(scope)?.saturating_sub(1).saturating_sub(i);
    put_variable(page, around)
}

fn variable_ty(scope: &Scope, i: u64) -> Result<Ty, NoMemory>
    ensures { IfOk result (λ a. a ≡ ty_at (scope_types scope.now) i) }
{
    match nth(scope, i) {
        Some(a) => copy_ty(a),
        None => Ok(Ty::Base(0)),
    }
}

/// The type of what a function gives; another type itself.
fn result_of(a: &Ty) -> Result<Ty, NoMemory>
    ensures { IfOk result (λ b. b ≡ result_at a.now (out-Ty a.now)) }
{
    match a {
        Ty::Arrow(_, to) => copy_ty(to.get()),
        Ty::Base(_) => copy_ty(a),
    }
}

/// The type of a term.
fn ty_of(
    alloc: Global,
    consts: &[Decl],
    table: &[Aux],
    scope: &Scope,
    t: &Term,
) -> Result<Ty, NoMemory>
    ensures { IfOk result (λ a. a ≡ (part consts.now table.now t.now (scope_types scope.now)).ty) }
{
    match t {
        Term::Bound(i) => variable_ty(scope, *i),
        Term::Free(_, a) => copy_ty(a),
        Term::Con(k) => konst_ty(alloc, consts, table, k),
        Term::App(f, _) => {
            let function = ty_of(alloc, consts, table, &*scope, f.get())?;
            result_of(&function)
        }
        Term::Lam(a, b) => {
            let to = ty_of(alloc, consts, table, &Scope::Under(&*a, &*scope), b.get())?;
            arrow(alloc, copy_ty(a)?, to)
        }
    }
}

/// Writes the core of a term.
fn put_core(
    page: &mut Page,
    alloc: Global,
    consts: &[Decl],
    table: &[Aux],
    scope: &Scope,
    t: &Term,
) -> Result<(), NoMemory>
    ensures { OnOk result (page.new ≡ (part consts.now table.now t.now (scope_types scope.now)).core page.old) }
{
    match t {
        Term::Bound(i) => put_index(page, scope, *i),
        Term::Free(n, _) => put_variable(page, *n),
        Term::Con(k) => put_konst(page, consts, k),
        Term::App(f, x) => {
            page.put(b"app(")?;
            put_tag(page, alloc, consts, table, &*scope, f.get())?;
            put_core(page, alloc, consts, table, &*scope, f.get())?;
            page.put(b")")?;
            page.put(b",")?;
            put_tag(page, alloc, consts, table, &*scope, x.get())?;
            put_core(page, alloc, consts, table, &*scope, x.get())?;
            page.put(b")")?;
            page.put(b")")
        }
        Term::Lam(_, _) => Ok(()),
    }
}

/// Writes the tag of a term, up to its bracket.
fn put_tag(
    page: &mut Page,
    alloc: Global,
    consts: &[Decl],
    table: &[Aux],
    scope: &Scope,
    t: &Term,
) -> Result<(), NoMemory>
    ensures { OnOk result (page.new ≡ pieces (word (codes "t") ∷ type_number (part consts.now table.now t.now (scope_types scope.now)).ty ∷ word (codes "(") ∷ []) page.old) }
{
    let ty = ty_of(alloc, consts, table, scope, t)?;
    page.put(b"t")?;
    page.put_type(&ty)?;
    page.put(b"(")
}

/// Writes a tagged term.
pub fn put_tagged(
    page: &mut Page,
    alloc: Global,
    consts: &[Decl],
    table: &[Aux],
    scope: &Scope,
    t: &Term,
) -> Result<(), NoMemory>
    ensures { OnOk result (page.new ≡ tagged (part consts.now table.now t.now (scope_types scope.now)) page.old) }
{
    put_tag(page, alloc, consts, table, scope, t)?;
    put_core(page, alloc, consts, table, scope, t)?;
    page.put(b")")
}
