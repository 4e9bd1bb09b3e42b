ghost use Rattle.std.specs.Prelude.{◌≡◌, IfOk, IsTrue, Some};
ghost use Rattle.std.specs.FinSet as set;
ghost use Rattle.kernel_rules.specs.Connectives.{is_equal, left_of, right_of};
ghost use Rattle.kernel_rules.specs.Rules.{seq};
ghost use Rattle.hol_kernel.specs.Logs.{IsThm, thm};
ghost use Rattle.hol_kernel.specs.Growth.{Extends, Gives, SameFacts};
ghost use Rattle.hol_derived.specs.Paths.{part_at, replaced_at};
ghost use Rattle.hol_derived.specs.inner.Contexts.{IsContext};

use hol_kernel::{Log, ThmId};
use hol_terms::{Term, copy};
use kernel_rules::{head_ty, lambda};
use std::alloc::Global;
use text_kit::{NoMemory, Rows, Shared};

/// The term with `u` in the place of the part at the path; the term itself where it has no such part.
///
/// A path's 0 goes to the function of an application, its 1 to the argument. It crosses no binder.
pub fn replaced(alloc: Global, path: &[u8], u: &Term, t: &Term) -> Result<Term, NoMemory>
    ensures { IfOk result (λ r. r ≡ replaced_at path.now u.now t.now) }
{
    match path {
        [] => copy(u),
        [first, rest @ ..] => match t {
            Term::App(f, x) => {
                if *first == 0 {
                    let left = Shared::new(alloc, replaced(alloc, rest, u, f.get())?)?;
                    Ok(Term::App(left, x.again()?))
                } else if *first == 1 {
                    let right = Shared::new(alloc, replaced(alloc, rest, u, x.get())?)?;
                    Ok(Term::App(f.again()?, right))
                } else {
                    copy(t)
                }
            }
            _ => copy(t),
        },
    }
}

/// The property that says of the left side of `eq` what the theorem `th` says, which has it at the path.
#[tactic(none)]
fn context(log: &Log, eq: ThmId, th: ThmId, path: &[u8]) -> Result<Term, NoMemory>
    requires eq { IsThm log.now eq.0 }
    requires th { IsThm log.now th.0 }
    requires is { IsTrue (is_equal (thm log.now eq.0).concl) }
    requires part { part_at path.now (thm log.now th.0).concl ≡ Some (left_of (thm log.now eq.0).concl) }
    ensures { IfOk result (IsContext log.now.env.sig (thm log.now eq.0).concl (thm log.now th.0).concl path.now) }
{
    let alloc = log.allocator();
    let equation = log.conclusion(eq);
    let own = head_ty(equation)?;
    let body = replaced(alloc, path, &Term::Bound(0), log.conclusion(th))?;
    lambda(alloc, own, body)
}

/// `replace_at` with the path's numbers lent.
#[tactic(none)]
pub(crate) fn replace_along(
    log: &mut Log,
    eq: ThmId,
    th: ThmId,
    path: &[u8],
) -> Result<ThmId, NoMemory>
    requires eq { IsThm log.old eq.0 }
    requires th { IsThm log.old th.0 }
    requires is { IsTrue (is_equal (thm log.old eq.0).concl) }
    requires part { part_at path.now (thm log.old th.0).concl ≡ Some (left_of (thm log.old eq.0).concl) }
    ensures kept { Extends log.old log.new }
    ensures facts { SameFacts log.old log.new }
    ensures gives { IfOk result (λ r. Gives log.new r.0 (seq (set.union (thm log.old eq.0).hyps (thm log.old th.0).hyps) (replaced_at path.now (right_of (thm log.old eq.0).concl) (thm log.old th.0).concl))) }
{
    let property = context(&*log, eq, th, path)?;
    log.subst_own(property, eq, th)
}

/// From `G : s = t` and `D : c`, where `c` has `s` at the path, to `G + D` with `t` there.
///
/// A path's 0 goes to the function of an application, its 1 to the argument. It crosses no binder.
#[tactic(none)]
pub fn replace_at(log: &mut Log, eq: ThmId, th: ThmId, path: &Rows<u8>) -> Result<ThmId, NoMemory>
    requires eq { IsThm log.old eq.0 }
    requires th { IsThm log.old th.0 }
    requires is { IsTrue (is_equal (thm log.old eq.0).concl) }
    requires part { part_at path.now (thm log.old th.0).concl ≡ Some (left_of (thm log.old eq.0).concl) }
    ensures kept { Extends log.old log.new }
    ensures facts { SameFacts log.old log.new }
    ensures gives { IfOk result (λ r. Gives log.new r.0 (seq (set.union (thm log.old eq.0).hyps (thm log.old th.0).hyps) (replaced_at path.now (right_of (thm log.old eq.0).concl) (thm log.old th.0).concl))) }
{
    replace_along(log, eq, th, path.as_slice())
}
