ghost use Rattle.std.specs.Prelude.{◌≡◌, ◌<◌, length, Some, slice_get, IfOk};
ghost use Rattle.fo_terms.specs.declared.clause.Clause.{Clause};
ghost use Rattle.fo_infer.specs.Inferences.{AloneGives, PairGives, tagged_position};
ghost use Rattle.tagged_terms.specs.Readings.{signs_of};
ghost use Rattle.kernel_rules.specs.declared.step.ThmId.{ThmId};
ghost use Rattle.kernel_rules.specs.Connectives.{falsum};
ghost use Rattle.hol_kernel.specs.Logs.{Logged, IsThm, thm};
ghost use Rattle.hol_kernel.specs.Growth.{Extends, SameFacts};
ghost use Rattle.clause_instances.specs.Theorems.{clause_of, Lands};
ghost use Rattle.hol_lift.specs.inner.Typed.{Joins};
ghost use Rattle.hol_lift.specs.Refutations.{IsTaggedClause, AreSignsOver};
ghost use Rattle.hol_lift.specs.inner.Lifting.{IsLifted, IsReady};

use crate::joining::{lift_paramodulate, lift_resolve};
use crate::single::{lift_factor, lift_input, lift_reflex};
use fo_infer::{Line, Origin, Rule};
use fo_terms::Clause;
use hol_kernel::{Log, ThmId};
use std::alloc::Global;
use tagged_terms::Symbol;
use text_kit::{NoMemory, Rows};

/// From the theorem of a tagged clause to the one of what a rule gives of it.
#[tactic(none)]
fn lift_alone(
    log: &mut Log,
    alloc: Global,
    symbols: &[Symbol],
    p: &Clause,
    rule: &Rule,
    th: ThmId,
) -> Result<ThmId, NoMemory>
    requires symbols { AreSignsOver log.old.env.sig (signs_of symbols.now) }
    requires tagged { IsTaggedClause (signs_of symbols.now) p.now.literals }
    requires rule { (c : Clause) × AloneGives p.now rule.now c }
    requires th { IsThm log.old th.0 }
    requires false_is { (thm log.old th.0).concl ≡ falsum }
    ensures kept { Extends log.old log.new }
    ensures facts { SameFacts log.old log.new }
    ensures gives { IfOk result (λ r. (c : Clause) → AloneGives p.now rule.now c → Lands log.old log.new th.0 (clause_of (signs_of symbols.now) p.now.literals) r.0 (clause_of (signs_of symbols.now) c.literals) × IsTaggedClause (signs_of symbols.now) c.literals) }
{
    match rule {
        Rule::Factor { i, j } => lift_factor(log, alloc, symbols, p, *i as usize, *j as usize, th),
        Rule::Reflex { i } => lift_reflex(log, alloc, symbols, p, *i as usize, th),
        Rule::Resolve { i: _, j: _ } => unreachable!(),
        Rule::Para {
            i: _,
            swapped: _,
            j: _,
            path: _,
        } => unreachable!(),
    }
}

/// From the theorems of two tagged clauses to the one of what a rule gives of them.
#[tactic(none)]
fn lift_pair(
    log: &mut Log,
    alloc: Global,
    symbols: &[Symbol],
    p: &Clause,
    left: ThmId,
    q: &Clause,
    right: ThmId,
    rule: &Rule,
) -> Result<ThmId, NoMemory>
    requires symbols { AreSignsOver log.old.env.sig (signs_of symbols.now) }
    requires left_tagged { IsTaggedClause (signs_of symbols.now) p.now.literals }
    requires right_tagged { IsTaggedClause (signs_of symbols.now) q.now.literals }
    requires rule { (c : Clause) × PairGives tagged_position p.now q.now rule.now c }
    requires left { IsThm log.old left.0 }
    requires right { IsThm log.old right.0 }
    requires left_false { (thm log.old left.0).concl ≡ falsum }
    requires right_false { (thm log.old right.0).concl ≡ falsum }
    ensures kept { Extends log.old log.new }
    ensures facts { SameFacts log.old log.new }
    ensures gives { IfOk result (λ r. (c : Clause) → PairGives tagged_position p.now q.now rule.now c → Joins log.old log.new left.0 (clause_of (signs_of symbols.now) p.now.literals) right.0 (clause_of (signs_of symbols.now) q.now.literals) r.0 (clause_of (signs_of symbols.now) c.literals) × IsTaggedClause (signs_of symbols.now) c.literals) }
{
    match rule {
        Rule::Resolve { i, j } => lift_resolve(
            log,
            alloc,
            symbols,
            p,
            *i as usize,
            left,
            q,
            *j as usize,
            right,
        ),
        Rule::Para {
            i,
            swapped,
            j,
            path,
        } => lift_paramodulate(
            log,
            alloc,
            symbols,
            p,
            *i as usize,
            *swapped,
            left,
            q,
            *j as usize,
            path.as_slice(),
            right,
        ),
        Rule::Factor { i: _, j: _ } => unreachable!(),
        Rule::Reflex { i: _ } => unreachable!(),
    }
}

/// The theorem of a line that has one.
pub fn made_at(made: &Rows<Option<ThmId>>, at: u64) -> ThmId
    requires within { at < length made.now }
    requires is { (t : ThmId) × (slice_get made.now at ≡ Some (Some t)) }
    ensures { slice_get made.now at ≡ Some (Some result) }
{
    match made.at(at as usize) {
        Some(t) => *t,
        None => unreachable!(),
    }
}

/// The theorem of a line, from those of the lines that it comes from.
#[tactic(none)]
pub fn lift_line(
    log: &mut Log,
    alloc: Global,
    symbols: &[Symbol],
    clauses: &Rows<Clause>,
    thms: &Rows<ThmId>,
    lines: &Rows<Line>,
    made: &Rows<Option<ThmId>>,
    line: &Line,
) -> Result<ThmId, NoMemory>
    requires symbols { AreSignsOver log.old.env.sig (signs_of symbols.now) }
    requires ready { (start : Logged) × IsReady start log.old (signs_of symbols.now) clauses.now thms.now lines.now made.now line.now }
    ensures kept { Extends log.old log.new }
    ensures facts { SameFacts log.old log.new }
    ensures gives { IfOk result (λ r. (start : Logged) → IsReady start log.old (signs_of symbols.now) clauses.now thms.now lines.now made.now line.now → IsLifted start log.new (signs_of symbols.now) clauses.now thms.now line.now.clause.literals r.0 × IsTaggedClause (signs_of symbols.now) line.now.clause.literals) }
{
    match &line.origin {
        Origin::Input { number } => {
            let p = clauses.at(*number as usize);
            let th = *thms.at(*number as usize);
            lift_input(log, alloc, symbols, p, th)
        }
        Origin::Alone { of, rule } => {
            let p = &lines.at(*of as usize).clause;
            lift_alone(log, alloc, symbols, p, rule, made_at(made, *of))
        }
        Origin::Pair { left, right, rule } => {
            let p = &lines.at(*left as usize).clause;
            let q = &lines.at(*right as usize).clause;
            lift_pair(
                log,
                alloc,
                symbols,
                p,
                made_at(made, *left),
                q,
                made_at(made, *right),
                rule,
            )
        }
    }
}
