ghost use Rattle.std.specs.Prelude.{◌≡◌, [], ◌∷◌, IfOk, OnOk};
ghost use Rattle.std.specs.List.{flat_map};
ghost use Rattle.hol_terms.specs.declared.term.Term.{roll-Term};
ghost use Rattle.hol_terms.specs.declared.term.Term.TheOpen.{Term-F};
ghost use Rattle.lambda_lift.specs.Lifting.{entry_at};
ghost use Rattle.lambda_lift.specs.Tables.{own_ty as own_ty_of};
ghost use Rattle.hol_terms.specs.Types.{bool_ty};
ghost use Rattle.hol_terms.specs.declared.ty.Ty.{out-Ty};
ghost use Rattle.lambda_lift.specs.Scopes.{scope_types};
ghost use Rattle.lambda_lift.specs.Closing.{ty_at};
ghost use Rattle.lambda_lift.specs.Equations.{result_at};
ghost use Rattle.fol_encode.specs.declared.sign.Sign.TheVariants as sign;
ghost use Rattle.fol_encode.specs.Signs.{in_order};
ghost use Rattle.fol_encode.specs.Occurring.{konst_ty as ty_of_konst, parts, occurring as signs_of_term};

use crate::gathered::Gathered;
use crate::sign::Sign;
use hol_terms::{Konst, Sig, Term, Ty, TypeFault, arrow, copy_konst, copy_ty, type_of};
use lambda_lift::{Aux, Scope, nth};
use std::alloc::Global;
use text_kit::NoMemory;

/// The type of truth values.
pub fn truth_values() -> Ty
    ensures { result ≡ bool_ty }
{
    Ty::Base(0)
}

/// The type of a quantifier's variable; bool where there is no such quantifier.
pub fn variable_ty(scope: &Scope, i: u64) -> Result<Ty, NoMemory>
    ensures { IfOk result (λ a. a ≡ ty_at (scope_types scope.now) i) }
{
    match nth(scope, i) {
        Some(a) => copy_ty(a),
        None => Ok(truth_values()),
    }
}

/// The type of what a function gives; another type itself.
pub fn result_of(a: &Ty) -> Result<Ty, NoMemory>
    ensures { IfOk result (λ b. b ≡ result_at a.now (out-Ty a.now)) }
{
    match a {
        Ty::Arrow(_, to) => copy_ty(to.get()),
        Ty::Base(_) => copy_ty(a),
    }
}

fn aux_ty(table: &[Aux], k: u64) -> Result<Ty, NoMemory>
    ensures { IfOk result (λ a. a ≡ (entry_at table.now k).ty) }
{
    match table.get(k as usize) {
        Some(e) => copy_ty(&e.ty),
        None => Ok(truth_values()),
    }
}

/// The type of a term that stands alone; bool where it has none.
fn own_ty(alloc: Global, sig: &Sig, t: &Term) -> Result<Ty, NoMemory>
    ensures { IfOk result (λ a. a ≡ own_ty_of sig.now t.now) }
{
    match type_of(alloc, sig, t) {
        Ok(a) => Ok(a),
        Err(TypeFault::IllTyped) => Ok(truth_values()),
        Err(TypeFault::NoMemory) => Err(NoMemory),
    }
}

fn sig_ty(alloc: Global, sig: &Sig, k: &Konst) -> Result<Ty, NoMemory>
    ensures { IfOk result (λ a. a ≡ own_ty_of sig.now (roll-Term (Term-F.Con k.now))) }
{
    let t = Term::Con(copy_konst(k)?);
    own_ty(alloc, sig, &t)
}

/// The type of a constant.
fn konst_ty(alloc: Global, sig: &Sig, table: &[Aux], k: &Konst) -> Result<Ty, NoMemory>
    ensures { IfOk result (λ a. a ≡ ty_of_konst sig.now table.now k.now) }
{
    match k {
        Konst::Aux(n) => aux_ty(table, *n),
        _ => sig_ty(alloc, sig, k),
    }
}

fn gather_tag(out: &mut Gathered, alloc: Global, a: &Ty) -> Result<(), NoMemory>
    ensures { OnOk result (out.new ≡ in_order out.old (sign.Tag a.now ∷ [])) }
{
    out.add(alloc, Sign::Tag(copy_ty(a)?))
}

/// Gathers the sign of a constant, and gives its type.
fn gather_konst(
    out: &mut Gathered,
    alloc: Global,
    sig: &Sig,
    table: &[Aux],
    k: &Konst,
) -> Result<Ty, NoMemory>
    ensures ty { IfOk result (λ a. a ≡ ty_of_konst sig.now table.now k.now) }
    ensures signs { OnOk result (out.new ≡ in_order out.old (sign.Constant k.now (ty_of_konst sig.now table.now k.now) ∷ [])) }
{
    let ty = konst_ty(alloc, sig, table, k)?;
    out.add(alloc, Sign::Constant(copy_konst(k)?, copy_ty(&ty)?))?;
    Ok(ty)
}

/// Gathers the signs of a term below its tag, and gives its type.
#[tactic(auto, using(crate::proofs::Placing::in_order_append))]
fn gather_below(
    out: &mut Gathered,
    alloc: Global,
    sig: &Sig,
    table: &[Aux],
    scope: &Scope,
    t: &Term,
) -> Result<Ty, NoMemory>
    ensures ty { IfOk result (λ a. a ≡ (parts sig.now table.now t.now (scope_types scope.now)).ty) }
    ensures signs { OnOk result (out.new ≡ in_order out.old (parts sig.now table.now t.now (scope_types scope.now)).signs) }
{
    match t {
        Term::Bound(i) => variable_ty(scope, *i),
        Term::Free(_, a) => copy_ty(a),
        Term::Con(k) => gather_konst(out, alloc, sig, table, k),
        Term::App(f, x) => {
            let function = gather_below(out, alloc, sig, table, &*scope, f.get())?;
            gather_tag(out, alloc, &function)?;
            let argument = gather_below(out, alloc, sig, table, &*scope, x.get())?;
            gather_tag(out, alloc, &argument)?;
            out.add(alloc, Sign::Apply)?;
            result_of(&function)
        }
        Term::Lam(a, b) => {
            let under = Scope::Under(&*a, &*scope);
            let to = gather_below(out, alloc, sig, table, &under, b.get())?;
            gather_tag(out, alloc, &to)?;
            arrow(alloc, copy_ty(a)?, to)
        }
    }
}

/// Gathers the signs of a term that stands alone.
#[tactic(auto, using(crate::proofs::Placing::in_order_append))]
fn gather(
    out: &mut Gathered,
    alloc: Global,
    sig: &Sig,
    table: &[Aux],
    t: &Term,
) -> Result<(), NoMemory>
    ensures { OnOk result (out.new ≡ in_order out.old (signs_of_term sig.now table.now t.now)) }
{
    let ty = gather_below(out, alloc, sig, table, &Scope::Outside, t)?;
    gather_tag(out, alloc, &ty)
}

/// Gathers the signs of terms.
pub fn gather_all(
    out: &mut Gathered,
    alloc: Global,
    sig: &Sig,
    table: &[Aux],
    terms: &[Term],
) -> Result<(), NoMemory>
    ensures { OnOk result (out.new ≡ in_order out.old (flat_map (signs_of_term sig.now table.now) terms.now)) }
{
    for t in terms {
        gather(out, alloc, sig, table, t)?;
    }
    Ok(())
}
