ghost use Rattle.std.specs.Prelude.{◌≡◌, IfOk};
ghost use Rattle.hol_terms.specs.Formulas.{is_formula as formula_test, is_sentence as sentence_test, typed_as, aux_free, var_free};

use crate::typing::type_of;
use crate::{Konst, Sig, Term, Ty, TypeFault, same_ty};
use std::alloc::Global;
use text_kit::NoMemory;

/// Whether the term has this type under no binders.
pub fn has_type(alloc: Global, sig: &Sig, t: &Term, ty: &Ty) -> Result<bool, NoMemory>
    ensures { IfOk result (λ b. b ≡ typed_as sig.now t.now ty.now) }
{
    match type_of(alloc, sig, t) {
        Ok(own) => Ok(same_ty(&own, ty)),
        Err(TypeFault::IllTyped) => Ok(false),
        Err(TypeFault::NoMemory) => Err(NoMemory),
    }
}

/// Whether no auxiliary constant occurs in the term.
pub fn has_no_aux(t: &Term) -> bool
    ensures { result ≡ aux_free t.now }
{
    match t {
        Term::Bound(_) => true,
        Term::Free(_, _) => true,
        Term::Con(Konst::Aux(_)) => false,
        Term::Con(_) => true,
        Term::App(f, x) => has_no_aux(f.get()) && has_no_aux(x.get()),
        Term::Lam(_, b) => has_no_aux(b.get()),
    }
}

/// Whether no free variable occurs in the term.
pub fn has_no_free(t: &Term) -> bool
    ensures { result ≡ var_free t.now }
{
    match t {
        Term::Bound(_) => true,
        Term::Free(_, _) => false,
        Term::Con(_) => true,
        Term::App(f, x) => has_no_free(f.get()) && has_no_free(x.get()),
        Term::Lam(_, b) => has_no_free(b.get()),
    }
}

/// Whether the term is a formula over the signature.
#[tactic(auto, unfolding(crate::specs::Formulas::is_formula))]
pub fn is_formula(alloc: Global, sig: &Sig, t: &Term) -> Result<bool, NoMemory>
    ensures { IfOk result (λ b. b ≡ formula_test sig.now t.now) }
{
    Ok(has_type(alloc, sig, t, &Ty::Base(0))? && has_no_aux(t))
}

/// Whether the term is a sentence over the signature.
#[tactic(auto, unfolding(crate::specs::Formulas::is_sentence))]
pub fn is_sentence(alloc: Global, sig: &Sig, t: &Term) -> Result<bool, NoMemory>
    ensures { IfOk result (λ b. b ≡ sentence_test sig.now t.now) }
{
    Ok(is_formula(alloc, sig, t)? && has_no_free(t))
}
