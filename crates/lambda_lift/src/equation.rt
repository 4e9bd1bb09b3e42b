ghost use Rattle.std.specs.Prelude.{◌≡◌, length, IfOk};
ghost use Rattle.hol_terms.specs.declared.ty.Ty.{out-Ty};
ghost use Rattle.hol_terms.specs.declared.konst.Konst.TheVariants as konst;
ghost use Rattle.lambda_lift.specs.Walks.{with_two as two_given};
ghost use Rattle.lambda_lift.specs.Equations.{result_at, run, behind, result_ty, for_all, applied_to_all, equation as equation_of};

use crate::table::Aux;
use crate::walk::{quantify, with_two};
use hol_terms::{Konst, Term, Ty, copy, copy_ty};
use std::alloc::Global;
use text_kit::{NoMemory, Shared};

/// The number of lambdas that the term begins with.
pub(crate) fn run_length(t: &Term) -> Result<u64, NoMemory>
    ensures { IfOk result (λ n. n ≡ length (run t.now)) }
{
    match t {
        Term::Lam(_, b) => match run_length(b.get())?.checked_add(1) {
            Some(n) => Ok(n),
            None => Err(NoMemory),
        },
        _ => Ok(0),
    }
}

/// The constant applied to the variables of `count` binders, the outermost first.
pub(crate) fn applied(alloc: Global, k: u64, count: u64) -> Result<Term, NoMemory>
    ensures { IfOk result (λ r. r ≡ applied_to_all (konst.Aux k) count) }
{
    let mut term = Term::Con(Konst::Aux(k));
    let mut v = count;
    while v > 0 {
        v -= 1;
        let arg = Shared::new(alloc, Term::Bound(v))?;
        term = Term::App(Shared::new(alloc, term)?, arg);
    }
    Ok(term)
}

/// The type of what a function gives; another type itself.
fn result_of(ty: &Ty) -> &Ty
    ensures { result.now ≡ result_at ty.now (out-Ty ty.now) }
{
    match ty {
        Ty::Arrow(_, to) => to.get(),
        Ty::Base(_) => ty,
    }
}

/// `left`, of this type, equals what stands behind the lambdas of the term, for all values of their variables.
fn equated(alloc: Global, t: &Term, ty: &Ty, left: Term) -> Result<Term, NoMemory>
    ensures { IfOk result (λ r. r ≡ for_all (run t.now) (two_given (konst.Eq (result_ty (run t.now) ty.now)) left (behind (run t.now) t.now))) }
{
    match t {
        Term::Lam(a, b) => {
            let inner = equated(alloc, b.get(), result_of(ty), left)?;
            quantify(alloc, &Konst::All(copy_ty(a)?), a, inner)
        }
        _ => with_two(alloc, &Konst::Eq(copy_ty(ty)?), left, copy(t)?),
    }
}

/// The equation of an auxiliary constant of this number: applied to a variable for each lambda that its closed term begins
/// with, it equals what stands behind these.
pub fn equation(alloc: Global, k: u64, entry: &Aux) -> Result<Term, NoMemory>
    ensures { IfOk result (λ r. r ≡ equation_of k entry.now) }
{
    let left = applied(alloc, k, run_length(&entry.closed)?)?;
    equated(alloc, &entry.closed, &entry.ty, left)
}
