ghost use Rattle.std.specs.Prelude.{◌≡◌, slice_get, IfOk};
ghost use Rattle.std.specs.Option.{option_copied};
ghost use Rattle.formula_clauses.specs.Choices.{put_in as put_in_all};
ghost use Rattle.formula_clauses.specs.inner.Scopes.{scope_terms, put_for as put_for_index};

use hol_terms::{Term, copy, copy_konst, copy_ty};
use std::alloc::Global;
use text_kit::{NoMemory, Shared};

/// The terms put for the variables of the quantifiers around a place, the innermost first: a chain on the stack, which takes
/// no room on the heap.
#[derive(Clone, Copy)]
pub enum Scope<'a> {
    Outside,
    Under(&'a Term, &'a Scope<'a>),
}

/// The term put for a quantifier's variable, counted from the innermost.
fn nth<'a>(scope: &Scope<'a>, i: u64) -> Option<&'a Term>
    ensures { option_copied result ≡ slice_get (scope_terms scope.now) i }
{
    match scope {
        Scope::Outside => None,
        Scope::Under(t, rest) => { if i == 0 { Some(*t) } else { nth(*rest, i - 1) } }
    }
}

/// What stands for index `i` behind `depth` binders of its own term.
fn put_for(scope: &Scope, i: u64, depth: u64) -> Result<Term, NoMemory>
    ensures { IfOk result (λ r. r ≡ put_for_index (scope_terms scope.now) i depth) }
{
    if i < depth {
        return Ok(Term::Bound(i));
    }
    match nth(scope, i - depth) {
        Some(t) => copy(t),
        None => Ok(Term::Bound(i)),
    }
}

/// The term behind `depth` binders of its own, with the scope's terms in it.
pub fn put_in(alloc: Global, t: &Term, scope: &Scope, depth: u64) -> Result<Term, NoMemory>
    ensures { IfOk result (λ r. r ≡ put_in_all (scope_terms scope.now) t.now depth) }
{
    match t {
        Term::Bound(i) => put_for(scope, *i, depth),
        Term::Free(n, a) => Ok(Term::Free(*n, copy_ty(a)?)),
        Term::Con(k) => Ok(Term::Con(copy_konst(k)?)),
        Term::App(f, x) => {
            let head = Shared::new(alloc, put_in(alloc, f.get(), &*scope, depth)?)?;
            let arg = Shared::new(alloc, put_in(alloc, x.get(), &*scope, depth)?)?;
            Ok(Term::App(head, arg))
        }
        Term::Lam(a, b) => {
            let Some(more) = depth.checked_add(1) else {
                return Err(NoMemory);
            };
            let body = Shared::new(alloc, put_in(alloc, b.get(), &*scope, more)?)?;
            Ok(Term::Lam(copy_ty(a)?, body))
        }
    }
}
