ghost use Rattle.std.specs.Prelude.{◌≡◌, ◌<◌, ℕ, length, nat_eq, IfOk, OnOk};
ghost use Rattle.indexmap.specs.IndexSet.{insert_key};
ghost use Rattle.hol_terms.specs.declared.term.Term.{roll-Term};
ghost use Rattle.hol_terms.specs.declared.term.Term.TheOpen.{Term-F};
ghost use Rattle.hol_terms.specs.declared.konst.Konst.TheVariants as konst;
ghost use Rattle.lambda_lift.specs.Scopes.{scope_types};
ghost use Rattle.lambda_lift.specs.Tables.{own_ty as type_of_own, place, with_entry};
ghost use Rattle.lambda_lift.specs.Closing.{occurs_in, closed_over};
ghost use Rattle.lambda_lift.specs.inner.Marks.{passes};
ghost use Rattle.lambda_lift.specs.Walks.{reading, lifted_out, apply, with_two as two_given};
ghost use Rattle.lambda_lift.specs.Views.{stage, ends, seen};

use crate::closing::{apply_to_marked, close, occurring};
use crate::met::Met;
use crate::scope::Scope;
use crate::table::Table;
use crate::view::{View, view_of};
use hol_terms::{Konst, Sig, Term, Ty, TypeFault, copy, copy_konst, copy_ty, type_of};
use std::alloc::Global;
use text_kit::{NoMemory, Rows, Shared};

/// The type of a term; bool where it has none.
fn own_ty(alloc: Global, sig: &Sig, t: &Term) -> Result<Ty, NoMemory>
    ensures { IfOk result (λ a. a ≡ type_of_own sig.now t.now) }
{
    match type_of(alloc, sig, t) {
        Ok(a) => Ok(a),
        Err(TypeFault::IllTyped) => Ok(Ty::Base(0)),
        Err(TypeFault::NoMemory) => Err(NoMemory),
    }
}

/// The number of a closed term, which is met.
fn number(
    alloc: Global,
    sig: &Sig,
    table: &mut Table,
    met: &mut Met,
    closed: &Term,
) -> Result<u64, NoMemory>
    ensures number { IfOk result (λ k. k ≡ place table.old closed.now) }
    ensures table { OnOk result (table.new ≡ with_entry table.old (type_of_own sig.now closed.now) closed.now) }
    ensures met { IfOk result (λ k. met.new ≡ insert_key nat_eq met.old k) }
{
    let ty = own_ty(alloc, sig, closed)?;
    let k = table.put(&ty, closed)?;
    met.meet(k)?;
    Ok(k)
}

/// The number of a lambda's closed term, which is met.
fn lambda_number(
    alloc: Global,
    sig: &Sig,
    table: &mut Table,
    met: &mut Met,
    scope: &Scope,
    marks: &Rows<bool>,
    t: &Term,
) -> Result<u64, NoMemory>
    requires length { length marks.now ≡ length (scope_types scope.now) }
    requires marks { (v : ℕ) → v < length marks.now → passes marks.now v ≡ occurs_in t.now v }
    ensures number { IfOk result (λ k. k ≡ place table.old (closed_over (scope_types scope.now) t.now)) }
    ensures table { let closed = closed_over (scope_types scope.now) t.now in OnOk result (table.new ≡ with_entry table.old (type_of_own sig.now closed) closed) }
    ensures met { IfOk result (λ k. met.new ≡ insert_key nat_eq met.old k) }
{
    let closed = close(alloc, scope, marks, t)?;
    number(alloc, sig, table, met, &closed)
}

/// The auxiliary constant that stands for a lambda, with the variables that occur in it.
fn lift_out(
    alloc: Global,
    sig: &Sig,
    table: &mut Table,
    met: &mut Met,
    scope: &Scope,
    t: &Term,
) -> Result<Term, NoMemory>
    ensures { IfOk result (λ r. lifted_out sig.now t.now (scope_types scope.now) (stage table.old met.old) ≡ ends r table.new met.new) }
{
    let marks = occurring(alloc, scope, t)?;
    let k = lambda_number(alloc, sig, table, met, scope, &marks, t)?;
    apply_to_marked(alloc, Term::Con(Konst::Aux(k)), marks.as_slice())
}

/// An atom or a part of one, lifted.
fn lift_atom(
    alloc: Global,
    sig: &Sig,
    table: &mut Table,
    met: &mut Met,
    scope: &Scope,
    t: &Term,
) -> Result<Term, NoMemory>
    ensures { IfOk result (λ r. (reading sig.now t.now).atom (scope_types scope.now) (stage table.old met.old) ≡ ends r table.new met.new) }
{
    match t {
        Term::App(f, x) => {
            let head = Shared::new(alloc, lift_atom(alloc, sig, table, met, &*scope, f.get())?)?;
            let arg = Shared::new(alloc, lift_atom(alloc, sig, table, met, &*scope, x.get())?)?;
            Ok(Term::App(head, arg))
        }
        Term::Lam(_, _) => lift_out(alloc, sig, table, met, &*scope, t),
        Term::Bound(_) => copy(t),
        Term::Free(_, _) => copy(t),
        Term::Con(_) => copy(t),
    }
}

/// `~a`
fn negation(alloc: Global, a: Term) -> Result<Term, NoMemory>
    ensures { IfOk result (λ r. r ≡ apply (roll-Term (Term-F.Con konst.Not)) a) }
{
    let arg = Shared::new(alloc, a)?;
    Ok(Term::App(Shared::new(alloc, Term::Con(Konst::Not))?, arg))
}

/// The constant with two arguments.
pub fn with_two(alloc: Global, k: &Konst, a: Term, b: Term) -> Result<Term, NoMemory>
    ensures { IfOk result (λ r. r ≡ two_given k.now a b) }
{
    let left = Shared::new(alloc, a)?;
    let right = Shared::new(alloc, b)?;
    let head = Shared::new(alloc, Term::Con(copy_konst(k)?))?;
    let half = Shared::new(alloc, Term::App(head, left))?;
    Ok(Term::App(half, right))
}

/// The quantifier over a variable of this type.
pub fn quantify(alloc: Global, k: &Konst, ty: &Ty, body: Term) -> Result<Term, NoMemory>
    ensures { IfOk result (λ r. r ≡ apply (roll-Term (Term-F.Con k.now)) (roll-Term (Term-F.Lam ty.now body))) }
{
    let inner = Shared::new(alloc, body)?;
    let property = Shared::new(alloc, Term::Lam(copy_ty(ty)?, inner))?;
    Ok(Term::App(Shared::new(alloc, Term::Con(copy_konst(k)?))?, property))
}

/// A formula, lifted.
pub fn lift_formula(
    alloc: Global,
    sig: &Sig,
    table: &mut Table,
    met: &mut Met,
    scope: &Scope,
    t: &Term,
) -> Result<Term, NoMemory>
    ensures { IfOk result (λ r. (reading sig.now t.now).formula (scope_types scope.now) (stage table.old met.old) ≡ ends r table.new met.new) }
{
    match view_of(t) {
        View::Negation(a) => {
            let inner = lift_formula(alloc, sig, table, met, &*scope, a)?;
            negation(alloc, inner)
        }
        View::Junction(k, a, b) => {
            let left = lift_formula(alloc, sig, table, met, &*scope, a)?;
            let right = lift_formula(alloc, sig, table, met, &*scope, b)?;
            with_two(alloc, k, left, right)
        }
        View::Quantifier(k, ty, body) => {
            let inner = lift_formula(alloc, sig, table, met, &Scope::Under(&*ty, &*scope), body)?;
            quantify(alloc, k, ty, inner)
        }
        View::Atom => lift_atom(alloc, sig, table, met, &*scope, t),
    }
}
