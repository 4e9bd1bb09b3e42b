ghost use Rattle.std.specs.Prelude.{◌≡◌, [], ◌∷◌, codes, length, OnOk};
ghost use Rattle.lambda_lift.specs.Scopes.{scope_types};
ghost use Rattle.tptp_print.specs.Pages.{word, pieces};
ghost use Rattle.tptp_print.specs.Terms.{variable};
ghost use Rattle.tptp_print.specs.Formulas.{atom_text, formula_text, sign as sign_of, quantifier_sign as quantifier_sign_of};

use crate::page::Page;
use crate::term::{depth, put_tagged, put_variable};
use hol_formulas::{Formula, Junction, Quantifier, sides_of};
use hol_terms::Term;
use lambda_lift::{Aux, Scope};
use std::alloc::Global;
use text_kit::NoMemory;
use theory_reader::Decl;

/// Writes an atom.
fn put_atom(
    page: &mut Page,
    alloc: Global,
    consts: &[Decl],
    table: &[Aux],
    scope: &Scope,
    t: &Term,
) -> Result<(), NoMemory>
    ensures { OnOk result (page.new ≡ atom_text consts.now table.now t.now (scope_types scope.now) page.old) }
{
    match sides_of(t) {
        Some(e) => {
            page.put(b"(")?;
            put_tagged(page, alloc, consts, table, &*scope, e.left)?;
            page.put(b" = ")?;
            put_tagged(page, alloc, consts, table, &*scope, e.right)?;
            page.put(b")")
        }
        None => {
            page.put(b"holds(")?;
            put_tagged(page, alloc, consts, table, &*scope, t)?;
            page.put(b")")
        }
    }
}

fn put_sign(page: &mut Page, j: Junction) -> Result<(), NoMemory>
    ensures { OnOk result (page.new ≡ word (sign_of j) page.old) }
{
    match j {
        Junction::And => page.put(b" & "),
        Junction::Or => page.put(b" | "),
        Junction::Imp => page.put(b" => "),
        Junction::Iff => page.put(b" <=> "),
    }
}

fn put_quantifier_sign(page: &mut Page, q: Quantifier) -> Result<(), NoMemory>
    ensures { OnOk result (page.new ≡ word (quantifier_sign_of q) page.old) }
{
    match q {
        Quantifier::All => page.put(b"(! ["),
        Quantifier::Ex => page.put(b"(? ["),
    }
}

/// Writes a quantifier with its variable.
fn put_binding(page: &mut Page, q: Quantifier, scope: &Scope) -> Result<(), NoMemory>
    ensures { OnOk result (page.new ≡ pieces (word (quantifier_sign_of q) ∷ variable (length (scope_types scope.now)) ∷ word (codes "] : ") ∷ []) page.old) }
{
    let around = depth(scope)?;
    put_quantifier_sign(page, q)?;
    put_variable(page, around)?;
    page.put(b"] : ")
}

/// Writes a formula.
pub fn put_formula(
    page: &mut Page,
    alloc: Global,
    consts: &[Decl],
    table: &[Aux],
    scope: &Scope,
    f: &Formula,
) -> Result<(), NoMemory>
    ensures { OnOk result (page.new ≡ formula_text consts.now table.now f.now (scope_types scope.now) page.old) }
{
    match f {
        Formula::True => page.put(b"$true"),
        Formula::False => page.put(b"$false"),
        Formula::Atom(t) => put_atom(page, alloc, consts, table, &*scope, t),
        Formula::Not(g) => {
            page.put(b"(~ ")?;
            put_formula(page, alloc, consts, table, &*scope, g.get())?;
            page.put(b")")
        }
        Formula::Two(j, g, h) => {
            page.put(b"(")?;
            put_formula(page, alloc, consts, table, &*scope, g.get())?;
            put_sign(page, *j)?;
            put_formula(page, alloc, consts, table, &*scope, h.get())?;
            page.put(b")")
        }
        Formula::Quantified(q, a, _, g) => {
            put_binding(page, *q, &*scope)?;
            put_formula(
                page,
                alloc,
                consts,
                table,
                &Scope::Under(&*a, &*scope),
                g.get(),
            )?;
            page.put(b")")
        }
    }
}
