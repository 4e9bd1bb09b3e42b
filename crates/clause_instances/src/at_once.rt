ghost use Rattle.std.specs.Prelude.{◌≡◌, ◌+◌, map, IfOk};
ghost use Rattle.hol_kernel.specs.Logs.{IsThm};
ghost use Rattle.hol_kernel.specs.Growth.{Extends, SameFacts};
ghost use Rattle.hol_clauses.specs.Bindings.{AllGiven};
ghost use Rattle.clause_instances.specs.AtOnce.{PutAtOnce};
ghost use Rattle.clause_instances.specs.inner.Passes.{moved, placed};

use crate::above::above_bindings;
use hol_clauses::{Binding, instantiate};
use hol_kernel::{Log, ThmId};
use hol_terms::{Term, copy, copy_ty};
use std::alloc::Global;
use text_kit::{NoMemory, Rows};

/// The number `by` places on.
fn further(number: u64, by: u64) -> Result<u64, NoMemory>
    ensures { IfOk result (λ n. n ≡ number + by) }
{
    match number.checked_add(by) {
        None => Err(NoMemory),
        Some(n) => Ok(n),
    }
}

/// The binding's variable goes to the one `by` numbers on.
fn moved_one(b: &Binding, by: u64) -> Result<Binding, NoMemory>
    ensures { IfOk result (λ c. c ≡ moved by b.now) }
{
    let number = further(b.number, by)?;
    let ty = copy_ty(&b.ty)?;
    let term = Term::Free(number, copy_ty(&b.ty)?);
    Ok(Binding {
        number: b.number,
        ty,
        term,
    })
}

/// The variable `by` numbers on goes to the binding's term.
fn placed_one(b: &Binding, by: u64) -> Result<Binding, NoMemory>
    ensures { IfOk result (λ c. c ≡ placed by b.now) }
{
    let number = further(b.number, by)?;
    let ty = copy_ty(&b.ty)?;
    let term = copy(&b.term)?;
    Ok(Binding { number, ty, term })
}

fn all_moved(alloc: Global, bindings: &[Binding], by: u64) -> Result<Rows<Binding>, NoMemory>
    ensures { IfOk result (λ bs. bs ≡ map (moved by) bindings.now) }
{
    let mut out = Rows::begin(alloc);
    for b in bindings {
        out.push(moved_one(b, by)?)?;
    }
    Ok(out)
}

fn all_placed(alloc: Global, bindings: &[Binding], by: u64) -> Result<Rows<Binding>, NoMemory>
    ensures { IfOk result (λ bs. bs ≡ map (placed by) bindings.now) }
{
    let mut out = Rows::begin(alloc);
    for b in bindings {
        out.push(placed_one(b, by)?)?;
    }
    Ok(out)
}

/// From `G : c` to the same with each binding's term for its variable, all at once: a term that is put in may have
/// variables that are bound too, and these stay as they are in it. Of several bindings of a variable the first counts.
///
/// It is two passes of one replacement after another: first each variable moves to a number above all in sight, and
/// from there to its term. What becomes of variables that aren't bound isn't said, since those of the theorem aren't
/// looked at. Want of memory is the answer too where a number would pass `u64::MAX`; variables that are numbered from
/// 0 never come near.
#[tactic(none)]
pub fn instantiate_at_once(
    log: &mut Log,
    alloc: Global,
    bindings: &[Binding],
    th: ThmId,
) -> Result<ThmId, NoMemory>
    requires bindings { AllGiven log.old.env.sig bindings.now }
    requires th { IsThm log.old th.0 }
    ensures kept { Extends log.old log.new }
    ensures facts { SameFacts log.old log.new }
    ensures gives { IfOk result (λ r. PutAtOnce log.old log.new bindings.now th.0 r.0) }
{
    let by = above_bindings(bindings)?;
    let first = all_moved(alloc, bindings, by)?;
    let second = all_placed(alloc, bindings, by)?;
    let apart = instantiate(log, first.as_slice(), th)?;
    instantiate(log, second.as_slice(), apart)
}
