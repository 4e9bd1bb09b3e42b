ghost use Rattle.std.specs.Prelude.{◌≡◌, ◌≤◌, IfOk, IsTrue, Some, [], ◌∷◌, ◌++◌, false, take, length};
ghost use Rattle.std.specs.FinSet as set;
ghost use Rattle.hol_terms.specs.Formulas.{IsFormula};
ghost use Rattle.hol_terms.specs.Substitution.{instantiated, occurs};
ghost use Rattle.hol_terms.specs.declared.term.Term.{Free};
ghost use Rattle.kernel_rules.specs.Connectives.{equal, lambda, is_equal, left_of, right_of};
ghost use Rattle.kernel_rules.specs.Rules.{seq};
ghost use Rattle.hol_kernel.specs.Logs.{IsThm, thm};
ghost use Rattle.hol_kernel.specs.Growth.{Extends, Gives, SameFacts};
ghost use Rattle.hol_kernel.specs.Conditions.{own_ty, IsGiven};
ghost use Rattle.hol_derived.specs.Paths.{part_at, replaced_at};
ghost use Rattle.hol_derived.specs.Contractions.{contraction as contraction_of, contracted_at, contracted_along};

use crate::replacing::replace_along;
use hol_kernel::{Log, ThmId};
use hol_terms::{Term, Ty, copy, copy_ty, free_in, instantiate};
use kernel_rules::{is_redex, right};
use std::alloc::Global;
use text_kit::{NoMemory, Rows};

/// A number whose variable of the type isn't in the term: the first, as they are tried in turn.
fn fresh(ty: &Ty, t: &Term) -> Result<u64, NoMemory>
    ensures { IfOk result (λ n. occurs n ty.now t.now ≡ false) }
{
    for n in 0..u64::MAX {
        if !free_in(n, ty, t) {
            return Ok(n);
        }
    }
    Err(NoMemory)
}

/// The body with the variable for the bound one.
#[tactic(none)]
fn opened(alloc: Global, n: u64, ty: &Ty, body: &Term) -> Result<Term, NoMemory>
    ensures { IfOk result (λ t. t ≡ instantiated body.now (Free n ty.now)) }
{
    let variable = Term::Free(n, copy_ty(ty)?);
    instantiate(alloc, body, &variable)
}

/// `{} : t = s` for the contraction of `t` itself.
#[tactic(none)]
fn root(log: &mut Log, t: &Term) -> Result<ThmId, NoMemory>
    requires { IsGiven log.old.env.sig t.now (own_ty log.old.env.sig t.now) }
    ensures kept { Extends log.old log.new }
    ensures facts { SameFacts log.old log.new }
    ensures gives { IfOk result (λ th. Gives log.new th.0 (contraction_of log.old.env.sig [] t.now)) }
{
    if is_redex(t) {
        log.beta(t)
    } else {
        log.refl(t)
    }
}

/// `1`, then the side, then the rest of a path.
fn to_right(alloc: Global, side: u8, more: &[u8]) -> Result<Rows<u8>, NoMemory>
    ensures { IfOk result (λ p. p ≡ 1 ∷ (side ∷ more.now)) }
{
    let mut path = Rows::begin(alloc);
    path.push(1)?;
    path.push(side)?;
    for number in more {
        path.push(*number)?;
    }
    Ok(path)
}

/// From `G : s = u` to `G : t = t'`, where `t` has `s` at the path `side`, `more` and `t'` has `u` there.
#[tactic(none)]
fn lifted(log: &mut Log, t: &Term, eq: ThmId, side: u8, more: &[u8]) -> Result<ThmId, NoMemory>
    requires t { IsGiven log.old.env.sig t.now (own_ty log.old.env.sig t.now) }
    requires eq { IsThm log.old eq.0 }
    requires is { IsTrue (is_equal (thm log.old eq.0).concl) }
    requires part { part_at (side ∷ more.now) t.now ≡ Some (left_of (thm log.old eq.0).concl) }
    ensures kept { Extends log.old log.new }
    ensures facts { SameFacts log.old log.new }
    ensures gives { IfOk result (λ th. Gives log.new th.0 (seq (thm log.old eq.0).hyps (equal (own_ty log.old.env.sig t.now) t.now (replaced_at (side ∷ more.now) (right_of (thm log.old eq.0).concl) t.now)))) }
{
    let path = to_right(log.allocator(), side, more)?;
    let same = log.refl(t)?;
    replace_along(log, eq, same, path.as_slice())
}

/// A part of a term, and how many numbers of a path lead to it.
#[derive(Clone, Copy)]
struct Reach<'t> {
    numbers: usize,
    part: &'t Term,
}

/// A part of a term, the way of a path that leads to it, and the rest of the path.
#[derive(Clone, Copy)]
struct Crossing<'t> {
    part: &'t Term,
    way: &'t [u8],
    rest: &'t [u8],
}

/// How far a path leads through applications alone.
fn reached<'t>(t: &'t Term, path: &[u8]) -> Reach<'t>
    ensures within { result.numbers ≤ length path.now }
    ensures part { part_at (take result.numbers path.now) t.now ≡ Some result.part.now }
{
    match path {
        [] => Reach {
            numbers: 0,
            part: t,
        },
        [first, rest @ ..] => match t {
            Term::App(f, x) => {
                if *first == 0 {
                    let reach = reached(f.get(), rest);
                    Reach {
                        numbers: reach.numbers + 1,
                        part: reach.part,
                    }
                } else if *first == 1 {
                    let reach = reached(x.get(), rest);
                    Reach {
                        numbers: reach.numbers + 1,
                        part: reach.part,
                    }
                } else {
                    Reach {
                        numbers: 0,
                        part: t,
                    }
                }
            }
            _ => Reach {
                numbers: 0,
                part: t,
            },
        },
    }
}

/// A path that is cut in two where it leads no further through applications alone.
fn crossed<'t>(t: &'t Term, path: &'t [u8]) -> Crossing<'t>
    ensures path { result.way.now ++ result.rest.now ≡ path.now }
    ensures part { part_at result.way.now t.now ≡ Some result.part.now }
{
    let reach = reached(t, path);
    Crossing {
        part: reach.part,
        way: &path[..reach.numbers],
        rest: &path[reach.numbers..],
    }
}

/// `{} : t = s` for the contraction `s` of `t` at the path.
#[cycle(contracts)]
pub fn contraction(log: &mut Log, t: &Term, path: &[u8]) -> Result<ThmId, NoMemory>
    requires { IsGiven log.old.env.sig t.now (own_ty log.old.env.sig t.now) }
    ensures kept { Extends log.old log.new }
    ensures facts { SameFacts log.old log.new }
    ensures gives { IfOk result (λ th. Gives log.new th.0 (contraction_of log.old.env.sig path.now t.now)) }
{
    match path {
        [] => root(log, t),
        [first, rest @ ..] => below(log, t, *first, rest),
    }
}

/// The same for a path that begins with this number.
#[cycle(contracts)]
#[tactic(none)]
fn below(log: &mut Log, t: &Term, first: u8, rest: &[u8]) -> Result<ThmId, NoMemory>
    requires { IsGiven log.old.env.sig t.now (own_ty log.old.env.sig t.now) }
    ensures kept { Extends log.old log.new }
    ensures facts { SameFacts log.old log.new }
    ensures gives { IfOk result (λ th. Gives log.new th.0 (contraction_of log.old.env.sig (first ∷ rest.now) t.now)) }
{
    match t {
        Term::App(f, x) => {
            if first == 0 {
                across(log, t, f.get(), 0, rest)
            } else if first == 1 {
                across(log, t, x.get(), 1, rest)
            } else {
                log.refl(t)
            }
        }
        Term::Lam(a, b) => {
            if first == 2 {
                under(log, a, b.get(), rest)
            } else {
                log.refl(t)
            }
        }
        _ => log.refl(t),
    }
}

/// The same for a path that goes to a side of an application: it is followed through further applications at once,
/// as far as it leads, so that two steps carry the equation back over all of them.
#[cycle(contracts)]
#[tactic(none)]
fn across(log: &mut Log, t: &Term, child: &Term, side: u8, rest: &[u8]) -> Result<ThmId, NoMemory>
    requires t { IsGiven log.old.env.sig t.now (own_ty log.old.env.sig t.now) }
    requires child { part_at (side ∷ []) t.now ≡ Some child.now }
    ensures kept { Extends log.old log.new }
    ensures facts { SameFacts log.old log.new }
    ensures gives { IfOk result (λ th. Gives log.new th.0 (contraction_of log.old.env.sig (side ∷ rest.now) t.now)) }
{
    let crossing = crossed(child, rest);
    let eq = contraction(log, crossing.part, crossing.rest)?;
    lifted(log, t, eq, side, crossing.way)
}

/// The same for a path that goes into the body of a lambda.
#[cycle(contracts)]
#[tactic(none)]
fn under(log: &mut Log, a: &Ty, b: &Term, rest: &[u8]) -> Result<ThmId, NoMemory>
    requires { IsGiven log.old.env.sig (lambda a.now b.now) (own_ty log.old.env.sig (lambda a.now b.now)) }
    ensures kept { Extends log.old log.new }
    ensures facts { SameFacts log.old log.new }
    ensures gives { IfOk result (λ th. Gives log.new th.0 (contraction_of log.old.env.sig (2 ∷ rest.now) (lambda a.now b.now))) }
{
    let n = fresh(a, b)?;
    let body = opened(log.allocator(), n, a, b)?;
    let eq = in_opened(log, body, rest)?;
    log.abs(n, a, eq)
}

/// `contraction` with the term by value.
#[cycle(contracts)]
#[tactic(none)]
fn in_opened(log: &mut Log, t: Term, path: &[u8]) -> Result<ThmId, NoMemory>
    requires { IsGiven log.old.env.sig t (own_ty log.old.env.sig t) }
    ensures kept { Extends log.old log.new }
    ensures facts { SameFacts log.old log.new }
    ensures gives { IfOk result (λ th. Gives log.new th.0 (contraction_of log.old.env.sig path.now t)) }
{
    let eq = contraction(log, &t, path);
    drop(t);
    eq
}

/// From `{} : t = s` and `G : s` to `G : t`.
#[tactic(none)]
fn turned(log: &mut Log, t: &Term, eq: ThmId, th: ThmId) -> Result<ThmId, NoMemory>
    requires t { IsGiven log.old.env.sig t.now (own_ty log.old.env.sig t.now) }
    requires eq { IsThm log.old eq.0 }
    requires th { IsThm log.old th.0 }
    requires is { thm log.old eq.0 ≡ seq set.empty (equal (own_ty log.old.env.sig t.now) t.now (thm log.old th.0).concl) }
    ensures kept { Extends log.old log.new }
    ensures facts { SameFacts log.old log.new }
    ensures gives { IfOk result (λ r. Gives log.new r.0 (seq (thm log.old th.0).hyps t.now)) }
{
    let same = log.refl(t)?;
    let back = replace_along(log, eq, same, &[0, 1])?;
    replace_along(log, back, th, &[])
}

/// `beta_expand` with the paths lent.
#[cycle(expands)]
fn expanded(log: &mut Log, th: ThmId, target: &Term, paths: &[Rows<u8>]) -> Result<ThmId, NoMemory>
    requires th { IsThm log.old th.0 }
    requires target { IsFormula log.old.env.sig target.now }
    requires redexes { contracted_along paths.now target.now ≡ (thm log.old th.0).concl }
    ensures kept { Extends log.old log.new }
    ensures facts { SameFacts log.old log.new }
    ensures gives { IfOk result (λ r. Gives log.new r.0 (seq (thm log.old th.0).hyps target.now)) }
{
    match paths {
        [] => Ok(th),
        [first, rest @ ..] => expanded_by(log, th, target, first.as_slice(), rest),
    }
}

/// The same with the first path apart.
#[cycle(expands)]
#[tactic(none)]
fn expanded_by(
    log: &mut Log,
    th: ThmId,
    target: &Term,
    first: &[u8],
    rest: &[Rows<u8>],
) -> Result<ThmId, NoMemory>
    requires th { IsThm log.old th.0 }
    requires target { IsFormula log.old.env.sig target.now }
    requires redexes { contracted_along rest.now (contracted_at first.now target.now) ≡ (thm log.old th.0).concl }
    ensures kept { Extends log.old log.new }
    ensures facts { SameFacts log.old log.new }
    ensures gives { IfOk result (λ r. Gives log.new r.0 (seq (thm log.old th.0).hyps target.now)) }
{
    let eq = contraction(log, target, first)?;
    let next = copy(right(log.conclusion(eq)))?;
    let below = expanded_own(log, th, next, rest)?;
    turned(log, target, eq, below)
}

/// The same with the term by value.
#[cycle(expands)]
#[tactic(none)]
fn expanded_own(
    log: &mut Log,
    th: ThmId,
    target: Term,
    paths: &[Rows<u8>],
) -> Result<ThmId, NoMemory>
    requires th { IsThm log.old th.0 }
    requires target { IsFormula log.old.env.sig target }
    requires redexes { contracted_along paths.now target ≡ (thm log.old th.0).concl }
    ensures kept { Extends log.old log.new }
    ensures facts { SameFacts log.old log.new }
    ensures gives { IfOk result (λ r. Gives log.new r.0 (seq (thm log.old th.0).hyps target)) }
{
    let reached = expanded(log, th, &target, paths);
    drop(target);
    reached
}

/// From `G : c` to `G : target`, where contracting the redexes of `target` at the paths in turn gives `c`.
///
/// A path's 0 goes to the function of an application, its 1 to the argument, its 2 into a lambda's body. A path that
/// leads to no redex stands for no change.
#[tactic(none)]
pub fn beta_expand(
    log: &mut Log,
    th: ThmId,
    target: &Term,
    paths: &Rows<Rows<u8>>,
) -> Result<ThmId, NoMemory>
    requires th { IsThm log.old th.0 }
    requires target { IsFormula log.old.env.sig target.now }
    requires redexes { contracted_along paths.now target.now ≡ (thm log.old th.0).concl }
    ensures kept { Extends log.old log.new }
    ensures facts { SameFacts log.old log.new }
    ensures gives { IfOk result (λ r. Gives log.new r.0 (seq (thm log.old th.0).hyps target.now)) }
{
    expanded(log, th, target, paths.as_slice())
}
