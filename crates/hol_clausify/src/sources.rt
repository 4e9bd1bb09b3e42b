ghost use Rattle.std.specs.Prelude.{◌≡◌, ◌<◌, [], ◌∷◌, ◌++◌, length, true, false, IfOk, OnOk};
ghost use Rattle.std.specs.FinSet as set;
ghost use Rattle.hyp_sets.specs.Sets.{only};
ghost use Rattle.hol_kernel.specs.Logs.{IsThm, thm, fact_at};
ghost use Rattle.hol_kernel.specs.Growth.{Extends, SameFacts};
ghost use Rattle.kernel_rules.specs.Connectives.{neg};
ghost use Rattle.kernel_rules.specs.Derivations.{leaves};
ghost use Rattle.lambda_lift.specs.Standing.{Each, StandsAlone};
ghost use Rattle.hol_clausify.specs.Shown.{shown};
ghost use Rattle.hol_clausify.specs.Sources.{FactSources, GoalSources};
ghost use Rattle.hol_clausify.specs.inner.Refuting.{AllRefuted, paired};
ghost use Rattle.hol_clausify.specs.inner.Lifted.{IsMade, AreMade, whole_placed};

use crate::each::cut_from_each;
use crate::lifting::{lifted_fact, lifted_goal};
use crate::refuting::refute;
use crate::source::Source;
use formula_clauses::{Clause, ClauseFault, LiftedClauses, clausify_lifted};
use hol_formulas::read;
use hol_kernel::{Log, ThmId};
use hol_terms::Term;
use lambda_lift::{Table, expand, whole};
use std::alloc::Global;
use text_kit::{NoMemory, Rows};

/// Appends each clause with its theorem.
fn put_paired(
    alloc: Global,
    out: &mut Rows<Source>,
    clauses: &[Clause],
    thms: &[ThmId],
) -> Result<(), NoMemory>
    ensures { OnOk result (out.new ≡ out.old ++ paired clauses.now thms.now) }
{
    match clauses {
        [] => Ok(()),
        [clause, more @ ..] => match thms {
            [] => Ok(()),
            [thm, rest @ ..] => {
                let literals = clause.copy(alloc)?;
                out.push(Source {
                    literals,
                    thm: *thm,
                })?;
                put_paired(alloc, out, more, rest)
            }
        },
    }
}

/// Theorems of the clauses that rest on the lifted formula, or on its negation where it is a goal.
fn refute_lifted(
    alloc: Global,
    log: &mut Log,
    table: &Table,
    made: &LiftedClauses,
    goal: bool,
) -> Result<Rows<ThmId>, NoMemory>
    requires { IsMade log.old.env.sig goal made.now table.now }
    ensures kept { Extends log.old log.new }
    ensures facts { SameFacts log.old log.new }
    ensures gives { IfOk result (λ ths. AllRefuted log.new (only (whole_placed goal made.now table.now)) (shown table.now made.now.clauses) ths) }
{
    let whole = whole(alloc, &made.lifted, goal)?;
    let formula = read(alloc, &whole)?;
    let shown = expand(alloc, table, &whole)?;
    let refutations = refute(log, formula.get(), !goal, &shown, 0)?;
    Ok(refutations.thms)
}

/// The clauses with their theorems, from the theorem of what they were made of.
fn sources_from(
    alloc: Global,
    log: &mut Log,
    table: &Table,
    made: &LiftedClauses,
    goal: bool,
    whole: ThmId,
) -> Result<Rows<Source>, NoMemory>
    requires made { IsMade log.old.env.sig goal made.now table.now }
    requires whole { IsThm log.old whole.0 }
    requires is { (thm log.old whole.0).concl ≡ whole_placed goal made.now table.now }
    ensures kept { Extends log.old log.new }
    ensures facts { SameFacts log.old log.new }
    ensures gives { IfOk result (AreMade log.new (thm log.old whole.0).hyps made.now table.now) }
{
    let refutations = refute_lifted(alloc, log, table, made, goal)?;
    let mut thms = Rows::begin(alloc);
    cut_from_each(log, whole, refutations.as_slice(), &mut thms)?;
    let mut out = Rows::begin(alloc);
    put_paired(alloc, &mut out, made.clauses.as_slice(), thms.as_slice())?;
    Ok(out)
}

/// The clauses of a fact with their theorems.
fn fact_sources(
    alloc: Global,
    log: &mut Log,
    table: &Table,
    fact: u32,
    formula: &Term,
    made: &LiftedClauses,
) -> Result<Rows<Source>, NoMemory>
    requires fact { fact < length log.old.env.facts }
    requires formula { formula.now ≡ fact_at log.old.env fact }
    requires made { (m : IsMade log.old.env.sig false made.now table.now) × (m.formula ≡ formula.now) }
    ensures kept { Extends log.old log.new }
    ensures facts { OnOk result (leaves log.new.steps ≡ leaves log.old.steps ++ fact ∷ []) }
    ensures gives { IfOk result (AreMade log.new set.empty made.now table.now) }
{
    let th = log.fact(fact)?;
    let whole = lifted_fact(alloc, log, table, formula, &made.lifted, th)?;
    sources_from(alloc, log, table, made, false, whole)
}

/// The clauses of the negated goal with their theorems.
fn goal_sources(
    alloc: Global,
    log: &mut Log,
    table: &Table,
    formula: &Term,
    made: &LiftedClauses,
) -> Result<Rows<Source>, NoMemory>
    requires formula { formula.now ≡ log.old.env.goal }
    requires made { (m : IsMade log.old.env.sig true made.now table.now) × (m.formula ≡ formula.now) }
    ensures kept { Extends log.old log.new }
    ensures facts { SameFacts log.old log.new }
    ensures gives { IfOk result (AreMade log.new (only (neg formula.now)) made.now table.now) }
{
    let whole = lifted_goal(alloc, log, table, formula, &made.lifted)?;
    sources_from(alloc, log, table, made, true, whole)
}

/// The clauses of a fact, in order, each with its theorem. The theorems rest on the one fact step that is appended.
///
/// `TooLarge` comes exactly where the fact's formula doesn't fit as a fact, and then log and table are as they were. Where
/// memory is wanting, both may have grown.
pub fn fact_clauses(
    alloc: Global,
    log: &mut Log,
    table: &mut Table,
    fact: u32,
) -> Result<Rows<Source>, ClauseFault>
    requires fact { fact < length log.old.env.facts }
    requires table { Each (StandsAlone log.old.env.sig) table.old }
    ensures kept { Extends log.old log.new }
    ensures sources { FactSources fact log.old table.old result log.new table.new }
{
    let env = log.env();
    let formula = env.facts.at(fact as usize);
    let made = clausify_lifted(alloc, &env.sig, table, formula, false)?;
    Ok(fact_sources(alloc, log, &*table, fact, formula, &made)?)
}

/// The clauses of the negated goal, in order, each with its theorem, which may have the negated goal as a hypothesis. No fact
/// step is appended.
///
/// `TooLarge` comes exactly where the goal doesn't fit as a goal, and then log and table are as they were. Where memory is
/// wanting, both may have grown.
pub fn goal_clauses(
    alloc: Global,
    log: &mut Log,
    table: &mut Table,
) -> Result<Rows<Source>, ClauseFault>
    requires table { Each (StandsAlone log.old.env.sig) table.old }
    ensures kept { Extends log.old log.new }
    ensures sources { GoalSources log.old table.old result log.new table.new }
{
    let env = log.env();
    let made = clausify_lifted(alloc, &env.sig, table, &env.goal, true)?;
    Ok(goal_sources(alloc, log, &*table, &env.goal, &made)?)
}
