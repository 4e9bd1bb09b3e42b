ghost use Rattle.std.specs.Prelude.{◌≡◌, map, IfOk};
ghost use Rattle.fo_terms.specs.Substitution.{put, put_atom};
ghost use Rattle.fol_cnf.specs.inner.Chains.{chained};

use fo_terms::{Atom, FoTerm};
use std::alloc::Global;
use text_kit::{NoMemory, Rows};

/// The terms put for the variables of the quantifiers around a place, the innermost first: a chain on the stack, which takes
/// no room on the heap.
#[derive(Clone, Copy)]
pub enum Scope<'a> {
    Outside,
    Under(u64, &'a FoTerm, &'a Scope<'a>),
}

/// The term that stands for a variable. One that no quantifier binds stands for itself.
fn look_up(alloc: Global, scope: &Scope, x: u64) -> Result<FoTerm, NoMemory>
    ensures { IfOk result (λ r. r ≡ chained scope.now x) }
{
    match scope {
        Scope::Outside => Ok(FoTerm::Var(x)),
        Scope::Under(y, t, rest) => {
            if *y == x {
                return (*t).copy(alloc);
            }
            look_up(alloc, *rest, x)
        }
    }
}

/// The term with the scope's terms in it.
#[cycle(putting)]
fn put_in(alloc: Global, t: &FoTerm, scope: &Scope) -> Result<FoTerm, NoMemory>
    ensures { IfOk result (λ r. r ≡ put (chained scope.now) t.now) }
{
    match t {
        FoTerm::Var(x) => look_up(alloc, &*scope, *x),
        FoTerm::Fun(f, args) => Ok(FoTerm::Fun(*f, put_in_all(alloc, args.as_slice(), &*scope)?)),
    }
}

#[cycle(putting)]
fn put_in_all(alloc: Global, terms: &[FoTerm], scope: &Scope) -> Result<Rows<FoTerm>, NoMemory>
    ensures { IfOk result (λ ts. ts ≡ map (put (chained scope.now)) terms.now) }
{
    let mut out = Rows::begin(alloc);
    for t in terms {
        out.push(put_in(alloc, t, &*scope)?)?;
    }
    Ok(out)
}

/// The atom with the scope's terms in it.
pub fn put_in_atom(alloc: Global, atom: &Atom, scope: &Scope) -> Result<Atom, NoMemory>
    ensures { IfOk result (λ a. a ≡ put_atom (chained scope.now) atom.now) }
{
    match atom {
        Atom::Holds(t) => Ok(Atom::Holds(put_in(alloc, t, &*scope)?)),
        Atom::Eq(s, t) => Ok(Atom::Eq(put_in(alloc, s, &*scope)?, put_in(alloc, t, &*scope)?)),
    }
}
