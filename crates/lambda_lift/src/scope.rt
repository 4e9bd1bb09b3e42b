ghost use Rattle.std.specs.Prelude.{◌≡◌, slice_get, unwrap_or, IfOk};
ghost use Rattle.std.specs.Option.{option_copied};
ghost use Rattle.lambda_lift.specs.Scopes.{scope_types};

use hol_terms::Ty;

/// The types of the quantifiers around a place, the innermost first: a chain on the stack, which takes no room on the heap.
#[derive(Clone, Copy)]
pub enum Scope<'a> {
    Outside,
    Under(&'a Ty, &'a Scope<'a>),
}

/// The type of a quantifier's variable, counted from the innermost.
pub fn nth<'a>(scope: &Scope<'a>, i: u64) -> Option<&'a Ty>
    ensures { option_copied result ≡ slice_get (scope_types scope.now) i }
{
    match scope {
        Scope::Outside => None,
        Scope::Under(a, rest) => { if i == 0 { Some(*a) } else { nth(*rest, i - 1) } }
    }
}
