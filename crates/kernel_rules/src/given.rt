ghost use Rattle.std.specs.Prelude.{◌≡◌, IfOk};
ghost use Rattle.hol_terms.specs.Typing.{type_of_term};
ghost use Rattle.kernel_rules.specs.Rules.{is_given as given};

use hol_terms::{Sig, Term, Ty, TypeFault, has_no_aux, has_type, type_of};
use std::alloc::Global;
use text_kit::NoMemory;

/// Whether the term has the type and holds no auxiliary constant.
#[tactic(auto, unfolding(crate::specs::Rules::is_given))]
pub fn is_given(alloc: Global, sig: &Sig, t: &Term, ty: &Ty) -> Result<bool, NoMemory>
    ensures { IfOk result (λ b. b ≡ given sig.now t.now ty.now) }
{
    Ok(has_type(alloc, sig, t, ty)? && has_no_aux(t))
}

/// The type of a term that stands alone, where it has one.
pub fn own_type(alloc: Global, sig: &Sig, t: &Term) -> Result<Option<Ty>, NoMemory>
    ensures { IfOk result (λ o. o ≡ type_of_term sig.now t.now) }
{
    match type_of(alloc, sig, t) {
        Ok(ty) => Ok(Some(ty)),
        Err(TypeFault::IllTyped) => Ok(None),
        Err(TypeFault::NoMemory) => Err(NoMemory),
    }
}
