ghost use Rattle.std.specs.Prelude.{◌≡◌, ◌<◌, ◌∷◌, ◌++◌, length, map, true, false, IfOk, OnOk};
ghost use Rattle.std.specs.FinSet as set;
ghost use Rattle.hyp_sets.specs.Sets.{only};
ghost use Rattle.kernel_rules.specs.Connectives.{neg, imp};
ghost use Rattle.kernel_rules.specs.Rules.{seq};
ghost use Rattle.hol_terms.specs.Formulas.{IsFormula, IsSentence};
ghost use Rattle.hol_kernel.specs.Logs.{IsThm, thm};
ghost use Rattle.hol_kernel.specs.Growth.{Extends, Gives, SameFacts};
ghost use Rattle.lambda_lift.specs.Tables.{expand as expanded};
ghost use Rattle.lambda_lift.specs.Redexes.{redexes as redexes_of};
ghost use Rattle.lambda_lift.specs.Wholes.{all_of};
ghost use Rattle.hol_clausify.specs.inner.LiftedOver.{IsLifted, whole_of};

use crate::equations::equations_hold;
use hol_derived::beta_expand;
use hol_kernel::{Log, ThmId};
use hol_terms::Term;
use kernel_rules::negation;
use lambda_lift::{Lifted, Table, expand, redexes, whole};
use std::alloc::Global;
use text_kit::{NoMemory, Rows};

/// A term, and the paths of the redexes that lead from it to another one.
#[derive(Drop)]
struct Reduction {
    term: Term,
    paths: Rows<Rows<u8>>,
}

/// The path from a negation to what it denies, and on.
fn in_negation(alloc: Global, path: &[u8]) -> Result<Rows<u8>, NoMemory>
    ensures { IfOk result (λ p. p ≡ 1 ∷ path.now) }
{
    let mut longer = Rows::begin(alloc);
    longer.push(1)?;
    for number in path {
        longer.push(*number)?;
    }
    Ok(longer)
}

/// Appends the same for each of the paths.
fn put_in_negation(
    alloc: Global,
    out: &mut Rows<Rows<u8>>,
    paths: &[Rows<u8>],
) -> Result<(), NoMemory>
    ensures { OnOk result (out.new ≡ out.old ++ map (λ p. 1 ∷ p) paths.now) }
{
    match paths {
        [] => Ok(()),
        [path, rest @ ..] => {
            let longer = in_negation(alloc, path.as_slice())?;
            out.push(longer)?;
            put_in_negation(alloc, out, rest)
        }
    }
}

/// The lifted formula, expanded, and the way from it to the formula.
fn body_reduction(
    alloc: Global,
    table: &Table,
    formula: &Term,
    lifted: &Lifted,
) -> Result<Reduction, NoMemory>
    ensures term { IfOk result (λ r. r.term ≡ expanded table.now lifted.now.body) }
    ensures paths { IfOk result (λ r. r.paths ≡ redexes_of formula.now lifted.now.body) }
{
    let term = expand(alloc, table, &lifted.body)?;
    let paths = redexes(alloc, formula, &lifted.body)?;
    Ok(Reduction { term, paths })
}

/// The same for their negations.
fn denial_reduction(
    alloc: Global,
    table: &Table,
    formula: &Term,
    lifted: &Lifted,
) -> Result<Reduction, NoMemory>
    ensures term { IfOk result (λ r. r.term ≡ neg (expanded table.now lifted.now.body)) }
    ensures paths { IfOk result (λ r. r.paths ≡ map (λ p. 1 ∷ p) (redexes_of formula.now lifted.now.body)) }
{
    let held = body_reduction(alloc, table, formula, lifted)?;
    let term = negation(alloc, &held.term)?;
    let mut paths = Rows::begin(alloc);
    put_in_negation(alloc, &mut paths, held.paths.as_slice())?;
    Ok(Reduction { term, paths })
}

/// From `{} : F` to `{} : F'` for the lifted formula, expanded.
fn body_holds(
    alloc: Global,
    log: &mut Log,
    table: &Table,
    formula: &Term,
    lifted: &Lifted,
    th: ThmId,
) -> Result<ThmId, NoMemory>
    requires formula { IsSentence log.old.env.sig formula.now }
    requires lifted { IsLifted log.old.env.sig formula.now lifted.now table.now }
    requires th { IsThm log.old th.0 }
    requires is { thm log.old th.0 ≡ seq set.empty formula.now }
    ensures kept { Extends log.old log.new }
    ensures facts { SameFacts log.old log.new }
    ensures gives { IfOk result (λ r. Gives log.new r.0 (seq set.empty (expanded table.now lifted.now.body))) }
{
    let way = body_reduction(alloc, table, formula, lifted)?;
    beta_expand(log, th, &way.term, &way.paths)
}

/// `{~F} : ~F`
fn supposed_denial(log: &mut Log, formula: &Term) -> Result<ThmId, NoMemory>
    requires { IsFormula log.old.env.sig formula.now }
    ensures kept { Extends log.old log.new }
    ensures facts { SameFacts log.old log.new }
    ensures gives { IfOk result (λ r. Gives log.new r.0 (seq (only (neg formula.now)) (neg formula.now))) }
{
    let denial = negation(log.allocator(), formula)?;
    log.assume_own(denial)
}

/// `{~F} : ~F'` for the lifted formula, expanded.
fn body_fails(
    alloc: Global,
    log: &mut Log,
    table: &Table,
    formula: &Term,
    lifted: &Lifted,
) -> Result<ThmId, NoMemory>
    requires formula { IsSentence log.old.env.sig formula.now }
    requires lifted { IsLifted log.old.env.sig formula.now lifted.now table.now }
    ensures kept { Extends log.old log.new }
    ensures facts { SameFacts log.old log.new }
    ensures gives { IfOk result (λ r. Gives log.new r.0 (seq (only (neg formula.now)) (neg (expanded table.now lifted.now.body)))) }
{
    let way = denial_reduction(alloc, table, formula, lifted)?;
    let denied = supposed_denial(log, formula)?;
    beta_expand(log, denied, &way.term, &way.paths)
}

/// From `{} : F` to `{} : F' & (E1 & (.. & Em))`, the lifted formula with its equations, expanded over a table that has all that the
/// lift has put into it; `{} : F'` where there are no equations.
pub fn lifted_fact(
    alloc: Global,
    log: &mut Log,
    table: &Table,
    formula: &Term,
    lifted: &Lifted,
    th: ThmId,
) -> Result<ThmId, NoMemory>
    requires formula { IsSentence log.old.env.sig formula.now }
    requires lifted { IsLifted log.old.env.sig formula.now lifted.now table.now }
    requires th { IsThm log.old th.0 }
    requires is { thm log.old th.0 ≡ seq set.empty formula.now }
    ensures kept { Extends log.old log.new }
    ensures facts { SameFacts log.old log.new }
    ensures gives { IfOk result (λ r. Gives log.new r.0 (seq set.empty (expanded table.now (whole_of false lifted.now)))) }
{
    let body = body_holds(alloc, log, table, formula, lifted, th)?;
    if lifted.equations.len() == 0 {
        return Ok(body);
    }
    let equations = equations_hold(alloc, log, table, formula, lifted)?;
    log.and_intro(body, equations)
}

/// From `{} : E` and `{~F} : ~F'` to `{~F} : ~(E ==> F')`.
fn implication_fails(
    log: &mut Log,
    whole: &Term,
    premises: ThmId,
    denied: ThmId,
    formula: &Term,
    body: &Term,
) -> Result<ThmId, NoMemory>
    requires whole { IsFormula log.old.env.sig whole.now }
    requires premises { IsThm log.old premises.0 }
    requires denied { IsThm log.old denied.0 }
    requires premises_hold { (thm log.old premises.0).hyps ≡ set.empty }
    requires denies { thm log.old denied.0 ≡ seq (only (neg formula.now)) (neg body.now) }
    requires is { whole.now ≡ imp (thm log.old premises.0).concl body.now }
    ensures kept { Extends log.old log.new }
    ensures facts { SameFacts log.old log.new }
    ensures gives { IfOk result (λ r. Gives log.new r.0 (seq (only (neg formula.now)) (neg whole.now))) }
{
    let supposed = log.assume(whole)?;
    let there = log.imp_elim(supposed, premises)?;
    let clash = log.not_elim(denied, there)?;
    log.not_intro(whole, clash)
}

/// `{~F} : ~((E1 & (.. & Em)) ==> F')` for a formula and its lifted form with its equations as premises, expanded over a table that has
/// all that the lift has put into it; `{~F} : ~F'` where there are no equations.
pub fn lifted_goal(
    alloc: Global,
    log: &mut Log,
    table: &Table,
    formula: &Term,
    lifted: &Lifted,
) -> Result<ThmId, NoMemory>
    requires formula { IsSentence log.old.env.sig formula.now }
    requires lifted { IsLifted log.old.env.sig formula.now lifted.now table.now }
    ensures kept { Extends log.old log.new }
    ensures facts { SameFacts log.old log.new }
    ensures gives { IfOk result (λ r. Gives log.new r.0 (seq (only (neg formula.now)) (neg (expanded table.now (whole_of true lifted.now))))) }
{
    let denied = body_fails(alloc, log, table, formula, lifted)?;
    if lifted.equations.len() == 0 {
        return Ok(denied);
    }
    let premises = equations_hold(alloc, log, table, formula, lifted)?;
    let body = expand(alloc, table, &lifted.body)?;
    let whole = expand(alloc, table, &whole(alloc, lifted, true)?)?;
    implication_fails(log, &whole, premises, denied, formula, &body)
}
