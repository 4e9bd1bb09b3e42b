ghost use Rattle.std.specs.Prelude.{◌≡◌, if◌then◌else◌, IfOk};
ghost use Rattle.fo_infer.specs.Paths.{changed_at, replaced, atom_replaced};
ghost use Rattle.fo_infer.specs.Inferences.{is_compound, is_single_compound, is_tagged, is_whole, tagged_position, plain_position};
ghost use Rattle.fo_infer.specs.inner.Places.{position_of};

use fo_terms::{Atom, FoTerm};
use std::alloc::Global;
use text_kit::{NoMemory, Rows};

fn is_compound_term(t: &FoTerm) -> bool
    ensures { result ≡ is_compound t.now }
{
    match t {
        FoTerm::Var(_) => false,
        FoTerm::Fun(_, _) => true,
    }
}

fn is_single(terms: &[FoTerm]) -> bool
    ensures { result ≡ is_single_compound terms.now }
{
    match terms {
        [t] => is_compound_term(t),
        _ => false,
    }
}

/// Whether the term is a tag on a core that is no variable.
fn is_tagged_term(t: &FoTerm) -> bool
    ensures { result ≡ is_tagged t.now }
{
    match t {
        FoTerm::Var(_) => false,
        FoTerm::Fun(_, args) => is_single(args.as_slice()),
    }
}

fn is_whole_term(a: &Atom, path: &[u64]) -> bool
    ensures { result ≡ is_whole a.now path.now }
{
    match a {
        Atom::Holds(_) => path.len() == 1,
        Atom::Eq(_, _) => false,
    }
}

/// Whether the subterm of the atom at the path is a position: a tag on a core that is no variable, or, where all
/// are plain, any term that is no variable, but for the whole term of an atom that is no equation.
pub fn fits(plain: bool, a: &Atom, path: &[u64], u: &FoTerm) -> bool
    ensures { result ≡ (position_of plain) a.now path.now u.now }
{
    if plain {
        is_compound_term(u) && !is_whole_term(a, path)
    } else {
        is_tagged_term(u)
    }
}

/// The term with another one at a path.
#[cycle(replacing)]
fn replace(alloc: Global, t: &FoTerm, path: &[u64], by: &FoTerm) -> Result<FoTerm, NoMemory>
    ensures { IfOk result (λ s. s ≡ replaced path.now by.now t.now) }
{
    match path {
        [] => by.copy(alloc),
        [place, rest @ ..] => match t {
            FoTerm::Var(x) => Ok(FoTerm::Var(*x)),
            FoTerm::Fun(f, args) => Ok(FoTerm::Fun(
                *f,
                replace_in(alloc, args.as_slice(), *place, rest, by)?,
            )),
        },
    }
}

#[cycle(replacing)]
fn replace_in(
    alloc: Global,
    terms: &[FoTerm],
    place: u64,
    rest: &[u64],
    by: &FoTerm,
) -> Result<Rows<FoTerm>, NoMemory>
    ensures { IfOk result (λ ts. ts ≡ changed_at place (replaced rest.now by.now) terms.now) }
{
    let mut out = Rows::begin(alloc);
    for k in 0..terms.len() {
        out.push(replace_where(alloc, &terms[k], k as u64 == place, &*rest, &*by)?)?;
    }
    Ok(out)
}

#[cycle(replacing)]
fn replace_where(
    alloc: Global,
    t: &FoTerm,
    here: bool,
    rest: &[u64],
    by: &FoTerm,
) -> Result<FoTerm, NoMemory>
    ensures { IfOk result (λ s. s ≡ (if here then replaced rest.now by.now t.now else t.now)) }
{
    if here {
        let s = replace(alloc, t, rest, by)?;
        Ok(s)
    } else {
        let s = t.copy(alloc)?;
        Ok(s)
    }
}

/// The atom with another term at a path, whose first number is the side.
pub fn replace_in_atom(alloc: Global, a: &Atom, path: &[u64], by: &FoTerm) -> Result<Atom, NoMemory>
    ensures { IfOk result (λ b. b ≡ atom_replaced path.now by.now a.now) }
{
    match path {
        [] => a.copy(alloc),
        [side, rest @ ..] => match a {
            Atom::Holds(t) => Ok(Atom::Holds(replace(alloc, t, rest, by)?)),
            Atom::Eq(s, t) => {
                if *side == 0 {
                    Ok(Atom::Eq(replace(alloc, s, rest, by)?, t.copy(alloc)?))
                } else {
                    Ok(Atom::Eq(s.copy(alloc)?, replace(alloc, t, rest, by)?))
                }
            }
        },
    }
}
