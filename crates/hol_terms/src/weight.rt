ghost use Rattle.std.specs.Prelude.{◌≡◌, ◌+◌, IfOk};
ghost use Rattle.hol_terms.specs.Weights.{ty_nodes as nodes_of_ty, konst_nodes as nodes_of_konst, nodes as nodes_of};

use crate::{Konst, Term, Ty};
use text_kit::NoMemory;

/// The deepest tree of a type or a term that is walked. Walks, drops and comparisons recurse once a level, and the
/// stack holds more than twice as many.
pub const DEEPEST: u32 = 20_000;

fn joined(left: u64, right: u64) -> Result<u64, NoMemory>
    ensures { IfOk result (λ n. n ≡ left + right + 1) }
{
    match left.checked_add(right) {
        Some(both) => more(both),
        None => Err(NoMemory),
    }
}

fn more(below: u64) -> Result<u64, NoMemory>
    ensures { IfOk result (λ n. n ≡ below + 1) }
{
    match below.checked_add(1) {
        Some(all) => Ok(all),
        None => Err(NoMemory),
    }
}

/// What is left of a bound behind one node, or want of memory where nothing is.
fn behind_one(most: u64) -> Result<u64, NoMemory> {
    match most.checked_sub(1) {
        Some(rest) => Ok(rest),
        None => Err(NoMemory),
    }
}

fn a_level_down(levels: u32) -> Result<u32, NoMemory> {
    match levels.checked_sub(1) {
        Some(rest) => Ok(rest),
        None => Err(NoMemory),
    }
}

fn ty_nodes(a: &Ty, most: u64, levels: u32) -> Result<u64, NoMemory>
    ensures { IfOk result (λ n. n ≡ nodes_of_ty a.now) }
{
    let rest = behind_one(most)?;
    let below = a_level_down(levels)?;
    match a {
        Ty::Base(_) => Ok(1),
        Ty::Arrow(from, to) => {
            let left = ty_nodes(from.get(), rest, below)?;
            let right = ty_nodes(to.get(), rest.saturating_sub(left), below)?;
            joined(left, right)
        }
    }
}

fn konst_nodes(table: &[Ty], k: &Konst, most: u64, levels: u32) -> Result<u64, NoMemory>
    ensures { IfOk result (λ n. n ≡ nodes_of_konst table.now k.now) }
{
    match k {
        Konst::Named(place) => match table.get(*place as usize) {
            Some(a) => more(ty_nodes(a, most, levels)?),
            None => Ok(1),
        },
        Konst::Eq(a) | Konst::All(a) | Konst::Ex(a) | Konst::Eps(a) => {
            more(ty_nodes(a, most, levels)?)
        }
        _ => Ok(1),
    }
}

fn nodes_at(table: &[Ty], t: &Term, most: u64, levels: u32) -> Result<u64, NoMemory>
    ensures { IfOk result (λ n. n ≡ nodes_of table.now t.now) }
{
    let rest = behind_one(most)?;
    let below = a_level_down(levels)?;
    match t {
        Term::Bound(_) => Ok(1),
        Term::Free(_, a) => more(ty_nodes(a, rest, below)?),
        Term::Con(k) => konst_nodes(table, k, rest, below),
        Term::App(f, x) => {
            let left = nodes_at(table, f.get(), rest, below)?;
            let right = nodes_at(table, x.get(), rest.saturating_sub(left), below)?;
            joined(left, right)
        }
        Term::Lam(a, b) => {
            let left = ty_nodes(a, rest, below)?;
            let right = nodes_at(table, b.get(), rest.saturating_sub(left), below)?;
            joined(left, right)
        }
    }
}

/// The nodes of a type as a tree. Want of memory is the answer where they are more than `most`, or where the tree is
/// deeper than `DEEPEST`.
pub fn type_nodes(a: &Ty, most: u64) -> Result<u64, NoMemory>
    ensures { IfOk result (λ n. n ≡ nodes_of_ty a.now) }
{
    ty_nodes(a, most, DEEPEST)
}

/// The nodes of a term as a tree, the types in it counted, and for each named constant the type that the table has
/// of it.
///
/// Want of memory is the answer where they are more than `most`, or where the tree is deeper than `DEEPEST`; then
/// about `most` nodes were looked at.
pub fn nodes(table: &[Ty], t: &Term, most: u64) -> Result<u64, NoMemory>
    ensures { IfOk result (λ n. n ≡ nodes_of table.now t.now) }
{
    nodes_at(table, t, most, DEEPEST)
}
