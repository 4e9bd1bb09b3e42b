ghost use Rattle.std.specs.Prelude.{◌≡◌, IfOk, slice_get, Some, None};
ghost use Rattle.std.specs.Option.{option_copied};
ghost use Rattle.hol_terms.specs.Types.{ty_fits, bool_ty, function_ty};
ghost use Rattle.hol_terms.specs.Typing.{type_in, type_of_term, konst_type, applied, under, checked, fitting, Answers};
ghost use Rattle.hol_terms.specs.inner.Binders.{binder_types};

use crate::ty::arrow;
use crate::{Konst, Sig, Term, Ty, TypeFault, copy_ty, same_ty};
use std::alloc::Global;
use text_kit::{NoMemory, Rows};

/// The types of the binders around a place, the innermost first: a chain on the stack, which takes no room on
/// the heap.
#[derive(Clone, Copy)]
pub enum Binders<'a> {
    Outside,
    Under(&'a Ty, &'a Binders<'a>),
}

fn nth<'a>(binders: &Binders<'a>, i: u64) -> Option<&'a Ty>
    ensures { option_copied result ≡ slice_get (binder_types binders.now) i }
{
    match binders {
        Binders::Outside => None,
        Binders::Under(a, rest) => { if i == 0 { Some(*a) } else { nth(*rest, i - 1) } }
    }
}

/// Whether every base type of `t` is below `types`. It takes no memory.
pub fn fits(types: u32, t: &Ty) -> bool
    ensures { result ≡ ty_fits types t.now }
{
    match t {
        Ty::Base(a) => *a < types,
        Ty::Arrow(a, b) => fits(types, a.get()) && fits(types, b.get()),
    }
}

fn checked_ty(types: u32, a: &Ty) -> Result<Ty, TypeFault>
    ensures { Answers (checked types a.now a.now) result }
{
    if fits(types, a) {
        Ok(copy_ty(a)?)
    } else {
        Err(TypeFault::IllTyped)
    }
}

fn bound_ty(binders: &Binders, i: u64) -> Result<Ty, TypeFault>
    ensures { Answers (slice_get (binder_types binders.now) i) result }
{
    match nth(binders, i) {
        Some(a) => Ok(copy_ty(a)?),
        None => Err(TypeFault::IllTyped),
    }
}

fn place_ty(types: u32, table: &Rows<Ty>, at: u64) -> Result<Ty, TypeFault>
    ensures { Answers (fitting types (slice_get table.now at)) result }
{
    match table.get(at as usize) {
        Some(a) => checked_ty(types, a),
        None => Err(TypeFault::IllTyped),
    }
}

/// The type of what a function of type `head` gives for an argument of type `arg`.
fn apply(head: &Ty, arg: &Ty) -> Result<Ty, TypeFault>
    ensures { Answers (applied (Some head.now) (Some arg.now)) result }
{
    match head {
        Ty::Base(_) => Err(TypeFault::IllTyped),
        Ty::Arrow(from, to) => {
            if same_ty(from.get(), arg) {
                Ok(copy_ty(to.get())?)
            } else {
                Err(TypeFault::IllTyped)
            }
        }
    }
}

fn lambda_ty(alloc: Global, types: u32, from: &Ty, to: Ty) -> Result<Ty, TypeFault>
    ensures { Answers (under types from.now (Some to)) result }
{
    if fits(types, from) {
        Ok(arrow(alloc, copy_ty(from)?, to)?)
    } else {
        Err(TypeFault::IllTyped)
    }
}

fn binary(alloc: Global) -> Result<Ty, NoMemory>
    ensures { IfOk result (λ t. t ≡ function_ty bool_ty (function_ty bool_ty bool_ty)) }
{
    let inner = arrow(alloc, Ty::Base(0), Ty::Base(0))?;
    arrow(alloc, Ty::Base(0), inner)
}

/// `a -> bool`
fn predicate(alloc: Global, a: &Ty) -> Result<Ty, NoMemory>
    ensures { IfOk result (λ t. t ≡ function_ty a.now bool_ty) }
{
    let from = copy_ty(a)?;
    arrow(alloc, from, Ty::Base(0))
}

fn equality(alloc: Global, types: u32, a: &Ty) -> Result<Ty, TypeFault>
    ensures { Answers (checked types a.now (function_ty a.now (function_ty a.now bool_ty))) result }
{
    if !fits(types, a) {
        return Err(TypeFault::IllTyped);
    }
    let inner = predicate(alloc, a)?;
    Ok(arrow(alloc, copy_ty(a)?, inner)?)
}

fn quantifier(alloc: Global, types: u32, a: &Ty) -> Result<Ty, TypeFault>
    ensures { Answers (checked types a.now (function_ty (function_ty a.now bool_ty) bool_ty)) result }
{
    if !fits(types, a) {
        return Err(TypeFault::IllTyped);
    }
    let inner = predicate(alloc, a)?;
    Ok(arrow(alloc, inner, Ty::Base(0))?)
}

fn choice(alloc: Global, types: u32, a: &Ty) -> Result<Ty, TypeFault>
    ensures { Answers (checked types a.now (function_ty (function_ty a.now bool_ty) a.now)) result }
{
    if !fits(types, a) {
        return Err(TypeFault::IllTyped);
    }
    let inner = predicate(alloc, a)?;
    Ok(arrow(alloc, inner, copy_ty(a)?)?)
}

fn konst_ty(alloc: Global, sig: &Sig, k: &Konst) -> Result<Ty, TypeFault>
    ensures { Answers (konst_type sig.now k.now) result }
{
    match k {
        Konst::Named(n) => place_ty(sig.types, &sig.consts, *n as u64),
        Konst::Aux(n) => place_ty(sig.types, &sig.aux, *n),
        Konst::True => Ok(Ty::Base(0)),
        Konst::False => Ok(Ty::Base(0)),
        Konst::Not => Ok(arrow(alloc, Ty::Base(0), Ty::Base(0))?),
        Konst::And => Ok(binary(alloc)?),
        Konst::Or => Ok(binary(alloc)?),
        Konst::Imp => Ok(binary(alloc)?),
        Konst::Eq(a) => equality(alloc, sig.types, a),
        Konst::All(a) => quantifier(alloc, sig.types, a),
        Konst::Ex(a) => quantifier(alloc, sig.types, a),
        Konst::Eps(a) => choice(alloc, sig.types, a),
    }
}

fn type_under(alloc: Global, sig: &Sig, t: &Term, binders: &Binders) -> Result<Ty, TypeFault>
    ensures { Answers (type_in sig.now t.now (binder_types binders.now)) result }
{
    match t {
        Term::Bound(i) => bound_ty(binders, *i),
        Term::Free(_, a) => checked_ty(sig.types, a),
        Term::Con(k) => konst_ty(alloc, sig, k),
        Term::App(f, x) => {
            let head = type_under(alloc, sig, f.get(), &*binders)?;
            let arg = type_under(alloc, sig, x.get(), &*binders)?;
            apply(&head, &arg)
        }
        Term::Lam(a, b) => {
            let to = type_under(alloc, sig, b.get(), &Binders::Under(&*a, &*binders))?;
            lambda_ty(alloc, sig.types, a, to)
        }
    }
}

/// The type of a term.
///
/// `IllTyped` comes exactly where the term has a loose index, an unknown constant, a base type that the
/// signature doesn't have, or an application that doesn't fit.
pub fn type_of(alloc: Global, sig: &Sig, t: &Term) -> Result<Ty, TypeFault>
    ensures { Answers (type_of_term sig.now t.now) result }
{
    type_under(alloc, sig, t, &Binders::Outside)
}
