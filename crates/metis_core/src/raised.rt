ghost use Rattle.std.specs.Prelude.{◌≡◌, ◌+◌, ◌<◌, ◌++◌, ◌∷◌, [], ℕ, List, Some, length, slice_get, IfOk, IfSome, OnOk};
ghost use Rattle.fo_terms.specs.declared.clause.Clause.{Clause};
ghost use Rattle.fo_terms.specs.declared.literal.Literal.{Literal};
ghost use Rattle.fo_terms.specs.Substitution.{var, put_literals};
ghost use Rattle.metis_core.specs.Raised.{IsRaised};

use fo_infer::{above_literals, raised};
use fo_terms::{Clause, Literal};
use std::alloc::Global;
use text_kit::{NoMemory, Rows};

/// Clauses are copied anew each time where their variables are raised by that number or more.
const MOST_COPIES: u64 = 16;

/// The literals of a kept clause with their variables raised, as inferences need them of a right premise. Each copy is made once.
#[derive(Drop)]
pub struct Raised {
    /// the least number above the clause's variables
    pub above: u64,
    /// the literals raised by the number of the place, where they were asked for
    pub copies: Rows<Option<Rows<Literal>>>,
}

/// A clause of which there is no copy yet.
pub fn uncopied(alloc: Global, c: &Clause) -> Result<Raised, NoMemory>
    ensures { IfOk result (IsRaised c.now) }
{
    let above = above_literals(c.literals.as_slice())?;
    let copies = Rows::begin(alloc);
    Ok(Raised { above, copies })
}

/// Appends places without copies, up to that one.
fn widen(copies: &mut Rows<Option<Rows<Literal>>>, by: usize) -> Result<(), NoMemory>
    ensures within { OnOk result (by < length copies.new) }
    ensures same { OnOk result ((k : ℕ) (ls : List Literal) → slice_get copies.new k ≡ Some (Some ls) → slice_get copies.old k ≡ Some (Some ls)) }
{
    while copies.len() <= by {
        copies.push(None)?;
    }
    Ok(())
}

/// Makes the copy of a clause that is raised by that number, where there is none yet and the number is below 16.
pub fn raise(all: &mut Raised, alloc: Global, by: u64, c: &Clause) -> Result<(), NoMemory>
    requires { IsRaised c.now all.old }
    ensures { OnOk result (IsRaised c.now all.new) }
{
    if by >= MOST_COPIES {
        return Ok(());
    }
    let at = by as usize;
    widen(&mut all.copies, at)?;
    if all.copies.at(at).is_none() {
        let copy = raised(alloc, by, c.literals.as_slice())?;
        all.copies.set(at, Some(copy));
    }
    Ok(())
}

/// Lends the copy that is raised by that number, where there is one.
pub fn copy_of(all: &Raised, by: u64) -> Option<&Rows<Literal>>
    ensures { (c : Clause) → IsRaised c all.now → IfSome result (λ ls. ls.now ≡ put_literals (λ x. var (x + by)) c.literals) }
{
    match all.copies.get(by as usize) {
        None => None,
        Some(slot) => match slot {
            None => None,
            Some(copy) => Some(copy),
        },
    }
}

/// Appends one. For want of memory nothing is said of the list.
pub fn push_raised(all: &mut Vec<Raised>, one: Raised) -> Result<(), NoMemory>
    ensures { OnOk result (all.new.items ≡ all.old.items ++ one ∷ []) }
{
    match all.push(one) {
        Ok(()) => Ok(()),
        Err(_) => Err(NoMemory),
    }
}
