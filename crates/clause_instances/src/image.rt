ghost use Rattle.std.specs.Prelude.{◌≡◌, ◌+◌, IfOk, map};
ghost use Rattle.fo_terms.specs.Substitution.{put, put_atom, put_literals};
ghost use Rattle.tagged_lines.specs.Variables.{final_number as final_place};
ghost use Rattle.clause_instances.specs.Images.{named, image};

use fo_terms::{Atom, FoTerm, Literal};
use fo_unify::{Bind, find};
use std::alloc::Global;
use text_kit::{NoMemory, Rows};

/// What an inference puts for the variables of a parent: they are renamed apart, the unifier is put through, and the
/// conclusion is brought to normal form.
#[derive(Clone, Copy, Drop)]
pub struct Image<'a> {
    /// by how much the parent's variables are raised to be apart from the other one's
    pub by: u64,
    /// the unifier
    pub binds: &'a [Bind],
    /// the variables of the conclusion in the order in which its normal form numbers them
    pub seen: &'a [u64],
}

/// The number that a variable has in the end.
fn final_number(seen: &[u64], x: u64) -> Result<u64, NoMemory>
    ensures { IfOk result (λ n. n ≡ final_place seen.now x) }
{
    for i in 0..seen.len() {
        if seen[i] == x {
            return Ok(i as u64);
        }
    }
    match x.checked_add(seen.len() as u64) {
        None => Err(NoMemory),
        Some(n) => Ok(n),
    }
}

#[cycle(naming)]
fn name(alloc: Global, seen: &[u64], t: &FoTerm) -> Result<FoTerm, NoMemory>
    ensures { IfOk result (λ s. s ≡ put (named seen.now) t.now) }
{
    match t {
        FoTerm::Var(x) => Ok(FoTerm::Var(final_number(seen, *x)?)),
        FoTerm::Fun(f, args) => Ok(FoTerm::Fun(*f, name_all(alloc, seen, args.as_slice())?)),
    }
}

#[cycle(naming)]
fn name_all(alloc: Global, seen: &[u64], terms: &[FoTerm]) -> Result<Rows<FoTerm>, NoMemory>
    ensures { IfOk result (λ ts. ts ≡ map (put (named seen.now)) terms.now) }
{
    let mut out = Rows::begin(alloc);
    for t in terms {
        out.push(name(alloc, &*seen, t)?)?;
    }
    Ok(out)
}

/// What is put for a variable.
///
/// Want of memory is the answer too where a number passes `u64::MAX`; the variables of normal forms never come near.
pub fn variable_image(alloc: Global, u: &Image, x: u64) -> Result<FoTerm, NoMemory>
    ensures { IfOk result (λ s. s ≡ image u.now.by u.now.binds.now u.now.seen.now x) }
{
    match x.checked_add(u.by) {
        None => Err(NoMemory),
        Some(y) => bound_image(alloc, u.binds, u.seen, y),
    }
}

/// What is put for a variable that is raised already.
fn bound_image(alloc: Global, binds: &[Bind], seen: &[u64], y: u64) -> Result<FoTerm, NoMemory>
    ensures { IfOk result (λ s. s ≡ image 0 binds.now seen.now y) }
{
    match find(binds, y) {
        Some(t) => name(alloc, seen, t),
        None => Ok(FoTerm::Var(final_number(seen, y)?)),
    }
}

#[cycle(imaging)]
pub fn term_image(alloc: Global, u: &Image, t: &FoTerm) -> Result<FoTerm, NoMemory>
    ensures { IfOk result (λ s. s ≡ put (image u.now.by u.now.binds.now u.now.seen.now) t.now) }
{
    match t {
        FoTerm::Var(x) => variable_image(alloc, u, *x),
        FoTerm::Fun(f, args) => Ok(FoTerm::Fun(*f, all_images(alloc, u, args.as_slice())?)),
    }
}

#[cycle(imaging)]
fn all_images(alloc: Global, u: &Image, terms: &[FoTerm]) -> Result<Rows<FoTerm>, NoMemory>
    ensures { IfOk result (λ ts. ts ≡ map (put (image u.now.by u.now.binds.now u.now.seen.now)) terms.now) }
{
    let mut out = Rows::begin(alloc);
    for t in terms {
        out.push(term_image(alloc, &*u, t)?)?;
    }
    Ok(out)
}

fn atom_image(alloc: Global, u: &Image, a: &Atom) -> Result<Atom, NoMemory>
    ensures { IfOk result (λ b. b ≡ put_atom (image u.now.by u.now.binds.now u.now.seen.now) a.now) }
{
    match a {
        Atom::Holds(t) => Ok(Atom::Holds(term_image(alloc, u, t)?)),
        Atom::Eq(s, t) => Ok(Atom::Eq(term_image(alloc, &*u, s)?, term_image(alloc, &*u, t)?)),
    }
}

/// The literals with what is put for their variables.
pub fn literals_image(
    alloc: Global,
    u: &Image,
    literals: &[Literal],
) -> Result<Rows<Literal>, NoMemory>
    ensures { IfOk result (λ ls. ls ≡ put_literals (image u.now.by u.now.binds.now u.now.seen.now) literals.now) }
{
    let mut out = Rows::begin(alloc);
    for l in literals {
        out.push(Literal {
            positive: l.positive,
            atom: atom_image(alloc, &*u, &l.atom)?,
        })?;
    }
    Ok(out)
}
