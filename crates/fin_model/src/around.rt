ghost use Rattle.std.specs.Prelude.{◌≡◌, slice_get, Some, OnSome};
ghost use Rattle.std.specs.Option.{option_copied};
ghost use Rattle.fin_model.specs.inner.Around.{types_of, values_of, IsNth};

use hol_terms::Ty;

/// The binders around a place, the innermost first, each with its type and the value that its variable has: a chain on
/// the stack, which takes no room on the heap.
#[derive(Clone, Copy)]
pub(crate) enum Around<'a> {
    Outside,
    Under(&'a Ty, u64, &'a Around<'a>),
}

/// The type and the value of the variable that an index names.
pub(crate) fn nth<'a>(around: &Around<'a>, i: u64) -> Option<(&'a Ty, u64)>
    ensures { IsNth (types_of around.now) (values_of around.now) i result }
{
    match around {
        Around::Outside => None,
        Around::Under(a, value, rest) => {
            if i == 0 {
                Some((*a, *value))
            } else {
                nth(*rest, i - 1)
            }
        }
    }
}
