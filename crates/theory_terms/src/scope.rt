ghost use Rattle.std.specs.Prelude.{◌≡◌, List, IfOk, IfSome};
ghost use Rattle.hol_terms.specs.declared.ty.Ty.{Ty as HolTy};
ghost use Rattle.theory_terms.specs.Signature.{found, further as one_further};
ghost use Rattle.theory_terms.specs.Numbers.{IsNumbered, AreNumbered};
ghost use Rattle.theory_terms.specs.inner.Scopes.{variables, numbered_types, lent};

use crate::numbered::Numbered;
use text_kit::NoMemory;

/// The bound variables around a part with their types, the innermost first: a chain on the stack, which takes no room
/// on the heap.
#[derive(Clone, Copy)]
pub(crate) enum Scope<'a> {
    Outside,
    Under(&'a [u8], &'a Numbered, &'a Scope<'a>),
}

fn further(inner: Option<(u64, &Numbered)>) -> Result<Option<(u64, &Numbered)>, NoMemory>
    ensures found { IfOk result (λ o. lent o ≡ one_further (lent inner.entry)) }
    ensures numbered { (table : List HolTy) → IfSome inner.entry (λ v. IsNumbered table v.1.now) → IfOk result (λ o. IfSome o (λ v. IsNumbered table v.1.now)) }
{
    match inner {
        None => Ok(None),
        Some((i, ty)) => match i.checked_add(1) {
            None => Err(NoMemory),
            Some(more) => Ok(Some((more, ty))),
        },
    }
}

/// The index and the type of the innermost variable of that name.
pub(crate) fn find<'a>(
    scope: &Scope<'a>,
    name: &[u8],
) -> Result<Option<(u64, &'a Numbered)>, NoMemory>
    ensures found { IfOk result (λ o. lent o ≡ found name.now (variables scope.now)) }
    ensures numbered { (table : List HolTy) → AreNumbered table (numbered_types scope.now) → IfOk result (λ o. IfSome o (λ v. IsNumbered table v.1.now)) }
{
    match scope {
        Scope::Outside => Ok(None),
        Scope::Under(own, ty, rest) => {
            if name == *own {
                Ok(Some((0, *ty)))
            } else {
                further(find(*rest, name)?)
            }
        }
    }
}
