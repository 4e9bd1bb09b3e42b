ghost use Rattle.std.specs.Prelude.{◌≡◌, [], slice_get, IfOk, OnOk};
ghost use Rattle.std.specs.Option.{option_map_or};
ghost use Rattle.hol_terms.specs.Types.{bool_ty, function_ty};
ghost use Rattle.hol_terms.specs.declared.konst.Konst.TheVariants as konst;
ghost use Rattle.lambda_lift.specs.Lifting.{entry_at};
ghost use Rattle.tptp_print.specs.Terms.{two_bools as two_bools_ty, konst_ty as ty_of_konst, word_of_type, konst_text};

use crate::page::Page;
use hol_terms::{Konst, Ty, arrow, copy_ty};
use lambda_lift::Aux;
use std::alloc::Global;
use text_kit::NoMemory;
use theory_reader::Decl;

/// The type of truth values.
pub fn truth_values() -> Ty
    ensures { result ≡ bool_ty }
{
    Ty::Base(0)
}

/// Functions of two truth values.
fn two_bools(alloc: Global) -> Result<Ty, NoMemory>
    ensures { IfOk result (λ a. a ≡ two_bools_ty) }
{
    arrow(
        alloc,
        truth_values(),
        arrow(alloc, truth_values(), truth_values())?,
    )
}

/// The functions from `a` to truth values.
fn properties(alloc: Global, a: &Ty) -> Result<Ty, NoMemory>
    ensures { IfOk result (λ b. b ≡ function_ty a.now bool_ty) }
{
    arrow(alloc, copy_ty(a)?, truth_values())
}

/// The functions from properties of `a` to `b`.
fn from_properties(alloc: Global, a: &Ty, b: Ty) -> Result<Ty, NoMemory>
    ensures { IfOk result (λ c. c ≡ function_ty (function_ty a.now bool_ty) b) }
{
    arrow(alloc, properties(alloc, a)?, b)
}

fn named_ty(consts: &[Decl], k: u32) -> Result<Ty, NoMemory>
    ensures { IfOk result (λ a. a ≡ option_map_or (λ d. d.ty) (slice_get consts.now k) bool_ty) }
{
    match consts.get(k as usize) {
        Some(d) => copy_ty(&d.ty),
        None => Ok(truth_values()),
    }
}

fn aux_ty(table: &[Aux], k: u64) -> Result<Ty, NoMemory>
    ensures { IfOk result (λ a. a ≡ (entry_at table.now k).ty) }
{
    match table.get(k as usize) {
        Some(e) => copy_ty(&e.ty),
        None => Ok(truth_values()),
    }
}

/// The type of a constant.
pub fn konst_ty(alloc: Global, consts: &[Decl], table: &[Aux], k: &Konst) -> Result<Ty, NoMemory>
    ensures { IfOk result (λ a. a ≡ ty_of_konst consts.now table.now k.now) }
{
    match k {
        Konst::Named(n) => named_ty(consts, *n),
        Konst::Aux(n) => aux_ty(table, *n),
        Konst::True => Ok(truth_values()),
        Konst::False => Ok(truth_values()),
        Konst::Not => arrow(alloc, truth_values(), truth_values()),
        Konst::And => two_bools(alloc),
        Konst::Or => two_bools(alloc),
        Konst::Imp => two_bools(alloc),
        Konst::Eq(a) => arrow(alloc, copy_ty(a)?, properties(alloc, a)?),
        Konst::All(a) => from_properties(alloc, a, truth_values()),
        Konst::Ex(a) => from_properties(alloc, a, truth_values()),
        Konst::Eps(a) => from_properties(alloc, a, copy_ty(a)?),
    }
}

fn put_named(page: &mut Page, consts: &[Decl], k: u32) -> Result<(), NoMemory>
    ensures { OnOk result (page.new ≡ konst_text consts.now (konst.Named k) page.old) }
{
    page.put(b"c_")?;
    match consts.get(k as usize) {
        Some(d) => page.put(d.name.as_slice()),
        None => page.put(b""),
    }
}

fn put_aux(page: &mut Page, k: u64) -> Result<(), NoMemory>
    ensures { OnOk result (page.new ≡ konst_text [] (konst.Aux k) page.old) }
{
    page.put(b"l_")?;
    page.put_number(k)
}

fn put_with_type(page: &mut Page, word: &[u8], a: &Ty) -> Result<(), NoMemory>
    ensures { OnOk result (page.new ≡ word_of_type word.now a.now page.old) }
{
    page.put(word)?;
    page.put_type(a)
}

/// Writes a constant.
pub fn put_konst(page: &mut Page, consts: &[Decl], k: &Konst) -> Result<(), NoMemory>
    ensures { OnOk result (page.new ≡ konst_text consts.now k.now page.old) }
{
    match k {
        Konst::Named(n) => put_named(page, consts, *n),
        Konst::Aux(n) => put_aux(page, *n),
        Konst::True => page.put(b"k_true"),
        Konst::False => page.put(b"k_false"),
        Konst::Not => page.put(b"k_not"),
        Konst::And => page.put(b"k_and"),
        Konst::Or => page.put(b"k_or"),
        Konst::Imp => page.put(b"k_imp"),
        Konst::Eq(a) => put_with_type(page, b"k_eq_", a),
        Konst::All(a) => put_with_type(page, b"k_all_", a),
        Konst::Ex(a) => put_with_type(page, b"k_ex_", a),
        Konst::Eps(a) => put_with_type(page, b"k_eps_", a),
    }
}
