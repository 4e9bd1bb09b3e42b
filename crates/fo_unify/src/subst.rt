ghost use Rattle.std.specs.Prelude.{◌≡◌, IfOk, map};
ghost use Rattle.std.specs.Option.{option_copied};
ghost use Rattle.fo_terms.specs.Substitution.{occurs_in, occurs_in_any, put};
ghost use Rattle.fo_unify.specs.Lookup.{lookup, term_of};

use fo_terms::FoTerm;
use std::alloc::Global;
use text_kit::{NoMemory, Rows};

/// A variable and the term that is put for it.
#[derive(Drop)]
pub struct Bind {
    pub var: u64,
    pub term: FoTerm,
}

/// A substitution.
#[derive(Drop)]
pub struct Subst {
    pub binds: Rows<Bind>,
}

pub fn find(binds: &[Bind], x: u64) -> Option<&FoTerm>
    ensures { option_copied result ≡ lookup binds.now x }
{
    for b in binds {
        if b.var == x {
            return Some(&b.term);
        }
    }
    None
}

#[cycle(applying)]
pub fn apply(alloc: Global, binds: &[Bind], t: &FoTerm) -> Result<FoTerm, NoMemory>
    ensures { IfOk result (λ s. s ≡ put (term_of binds.now) t.now) }
{
    match t {
        FoTerm::Var(x) => match find(binds, *x) {
            Some(found) => found.copy(alloc),
            None => Ok(FoTerm::Var(*x)),
        },
        FoTerm::Fun(f, args) => Ok(FoTerm::Fun(*f, apply_all(alloc, binds, args.as_slice())?)),
    }
}

#[cycle(applying)]
pub fn apply_all(alloc: Global, binds: &[Bind], ts: &[FoTerm]) -> Result<Rows<FoTerm>, NoMemory>
    ensures { IfOk result (λ s. s ≡ map (put (term_of binds.now)) ts.now) }
{
    let mut out = Rows::begin(alloc);
    for t in ts {
        out.push(apply(alloc, binds, t)?)?;
    }
    Ok(out)
}

#[cycle(occurring)]
pub fn occurs(x: u64, t: &FoTerm) -> bool
    ensures { result ≡ occurs_in x t.now }
{
    match t {
        FoTerm::Var(y) => x == *y,
        FoTerm::Fun(_, args) => occurs_any(x, args.as_slice()),
    }
}

#[cycle(occurring)]
pub fn occurs_any(x: u64, ts: &[FoTerm]) -> bool
    ensures { result ≡ occurs_in_any x ts.now }
{
    for t in ts {
        if occurs(x, t) {
            return true;
        }
    }
    false
}
