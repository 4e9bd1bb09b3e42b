ghost use Rattle.std.specs.Prelude.{◌≡◌, ℕ, suc, true, [], Some, length, slice_get, IfOk};
ghost use Rattle.fo_infer.specs.Inferences.{tagged_position};
ghost use Rattle.fo_infer.specs.Lines.{FollowFrom, Refutes};
ghost use Rattle.tagged_terms.specs.Readings.{signs_of};
ghost use Rattle.kernel_rules.specs.declared.step.ThmId.{ThmId};
ghost use Rattle.hol_kernel.specs.Logs.{Logged};
ghost use Rattle.hol_kernel.specs.Growth.{Extends, SameFacts};
ghost use Rattle.hol_lift.specs.Refutations.{AreSignsOver, IsTaggedClause};
ghost use Rattle.hol_lift.specs.Refutations.{AreInputs, IsRefutation};
ghost use Rattle.hol_lift.specs.inner.Lifting.{AreWanted, AreLifted, IsLifted, IsReady, HasLast};

use crate::line::{lift_line, made_at};
use crate::wanting::wanted;
use fo_infer::{Line, Refutation};
use fo_terms::Clause;
use hol_kernel::{Log, ThmId};
use std::alloc::Global;
use tagged_terms::Symbol;
use text_kit::{NoMemory, Rows};

/// The theorem of a line, where it is wanted.
#[tactic(none)]
fn lift_wanted(
    log: &mut Log,
    alloc: Global,
    symbols: &[Symbol],
    clauses: &Rows<Clause>,
    thms: &Rows<ThmId>,
    lines: &Rows<Line>,
    made: &Rows<Option<ThmId>>,
    line: &Line,
    wanted: bool,
) -> Result<Option<ThmId>, NoMemory>
    requires symbols { AreSignsOver log.old.env.sig (signs_of symbols.now) }
    requires ready { wanted ≡ true → (start : Logged) × IsReady start log.old (signs_of symbols.now) clauses.now thms.now lines.now made.now line.now }
    ensures kept { Extends log.old log.new }
    ensures facts { SameFacts log.old log.new }
    ensures gives { IfOk result (λ o. wanted ≡ true → (t : ThmId) × (o ≡ Some t) × ((start : Logged) → IsReady start log.old (signs_of symbols.now) clauses.now thms.now lines.now made.now line.now → IsLifted start log.new (signs_of symbols.now) clauses.now thms.now line.now.clause.literals t.0 × IsTaggedClause (signs_of symbols.now) line.now.clause.literals)) }
{
    if wanted {
        let th = lift_line(log, alloc, symbols, clauses, thms, lines, made, line)?;
        Ok(Some(th))
    } else {
        Ok(None)
    }
}

/// The theorems of the lines that are wanted, in order.
fn lift_lines(
    log: &mut Log,
    alloc: Global,
    symbols: &[Symbol],
    clauses: &Rows<Clause>,
    thms: &Rows<ThmId>,
    lines: &Rows<Line>,
    marks: &Rows<bool>,
) -> Result<Rows<Option<ThmId>>, NoMemory>
    requires symbols { AreSignsOver log.old.env.sig (signs_of symbols.now) }
    requires inputs { AreInputs log.old (signs_of symbols.now) clauses.now thms.now }
    requires follow { FollowFrom tagged_position clauses.now [] lines.now }
    requires marks { AreWanted lines.now marks.now }
    ensures kept { Extends log.old log.new }
    ensures facts { SameFacts log.old log.new }
    ensures gives { IfOk result (λ made. AreLifted log.old log.new (signs_of symbols.now) clauses.now thms.now lines.now marks.now made) }
{
    let mut made = Rows::begin(alloc);
    for k in 0..lines.len() {
        let th = lift_wanted(
            log,
            alloc,
            symbols,
            clauses,
            thms,
            lines,
            &made,
            lines.at(k),
            *marks.at(k),
        )?;
        made.push(th)?;
    }
    Ok(made)
}

/// A refutation of tagged clauses as steps of the kernel: from the inputs' theorems to one that concludes `false` under the
/// hypotheses that they have beyond the negations of their clauses' literals.
///
/// Each clause is tagged for some types, in the symbols' meanings by their numbers; each theorem concludes `false`, its
/// hypotheses being negations of the clause's literals, or of a base that all have and that holds no free variables.
/// A line becomes a theorem of its clause: both parents are instantiated by what the inference puts for their variables,
/// and then the inference is one of ground clauses. There is no answer 'not lifted': want of memory is the only refusal,
/// and then the log may have grown.
///
/// Only the lines from which the last one follows are lifted, each once, so the steps are in proportion to their number,
/// and a line's steps to the variables and the refuted literals of its parents.
#[tactic(none)]
pub fn lift(
    log: &mut Log,
    alloc: Global,
    symbols: &[Symbol],
    clauses: &Rows<Clause>,
    thms: &Rows<ThmId>,
    r: &Refutation,
) -> Result<ThmId, NoMemory>
    requires symbols { AreSignsOver log.old.env.sig (signs_of symbols.now) }
    requires inputs { AreInputs log.old (signs_of symbols.now) clauses.now thms.now }
    requires refutes { Refutes tagged_position clauses.now r.now.lines }
    ensures kept { Extends log.old log.new }
    ensures facts { SameFacts log.old log.new }
    ensures gives { IfOk result (λ t. IsRefutation log.old log.new (signs_of symbols.now) clauses.now thms.now t.0) }
{
    let marks = wanted(alloc, &r.lines)?;
    let made = lift_lines(log, alloc, symbols, clauses, thms, &r.lines, &marks)?;
    Ok(last_made(&made))
}

/// The theorem of the last line.
fn last_made(made: &Rows<Option<ThmId>>) -> ThmId
    requires { HasLast made.now }
    ensures { (k : ℕ) → length made.now ≡ suc k → slice_get made.now k ≡ Some (Some result) }
{
    made_at(made, made.len() as u64 - 1)
}
