ghost use Rattle.std.specs.Prelude.{◌≡◌, IfOk};
ghost use Rattle.std.specs.FinSet as set;
ghost use Rattle.hol_terms.specs.Formulas.{IsFormula};
ghost use Rattle.hyp_sets.specs.Sets.{only};
ghost use Rattle.kernel_rules.specs.Connectives.{falsum, neg, disj};
ghost use Rattle.kernel_rules.specs.Rules.{seq};
ghost use Rattle.hol_kernel.specs.Logs.{IsThm, thm};
ghost use Rattle.hol_kernel.specs.Growth.{Extends, Gives, SameFacts};

use hol_kernel::{Log, ThmId};
use hol_terms::Term;
use kernel_rules::{disjunction, negation};
use std::alloc::Global;
use text_kit::NoMemory;

/// `p | ~p`
fn middle(alloc: Global, p: &Term) -> Result<Term, NoMemory>
    ensures { IfOk result (λ t. t ≡ disj p.now (neg p.now)) }
{
    disjunction(alloc, p, &negation(alloc, p)?)
}

/// `~(p | ~p)`
fn denial(alloc: Global, p: &Term) -> Result<Term, NoMemory>
    ensures { IfOk result (λ t. t ≡ neg (disj p.now (neg p.now))) }
{
    negation(alloc, &middle(alloc, p)?)
}

/// From `N : ~(p | ~p)` to `N + {p} : false`.
#[tactic(none)]
fn clash(log: &mut Log, p: &Term, against: ThmId) -> Result<ThmId, NoMemory>
    requires p { IsFormula log.old.env.sig p.now }
    requires against { IsThm log.old against.0 }
    requires denies { (thm log.old against.0).concl ≡ neg (disj p.now (neg p.now)) }
    ensures kept { Extends log.old log.new }
    ensures facts { SameFacts log.old log.new }
    ensures gives { IfOk result (λ th. Gives log.new th.0 (seq (set.union (thm log.old against.0).hyps (only p.now)) falsum)) }
{
    let other = negation(log.allocator(), p)?;
    let holds = log.assume(p)?;
    let either = log.or_left_own(other, holds)?;
    log.not_elim(against, either)
}

/// From `N : ~(p | ~p)` to `(N + {p}) - p : p | ~p`.
#[tactic(none)]
fn denied(log: &mut Log, p: &Term, against: ThmId) -> Result<ThmId, NoMemory>
    requires p { IsFormula log.old.env.sig p.now }
    requires against { IsThm log.old against.0 }
    requires denies { (thm log.old against.0).concl ≡ neg (disj p.now (neg p.now)) }
    ensures kept { Extends log.old log.new }
    ensures facts { SameFacts log.old log.new }
    ensures gives { IfOk result (λ th. Gives log.new th.0 (seq (set.remove (set.union (thm log.old against.0).hyps (only p.now)) p.now) (disj p.now (neg p.now)))) }
{
    let refuted = clash(log, p, against)?;
    let absent = log.not_intro(p, refuted)?;
    log.or_right(p, absent)
}

/// `{} : p | ~p` for any formula.
#[tactic(none)]
pub fn excluded_middle(log: &mut Log, p: &Term) -> Result<ThmId, NoMemory>
    requires { IsFormula log.old.env.sig p.now }
    ensures kept { Extends log.old log.new }
    ensures facts { SameFacts log.old log.new }
    ensures gives { IfOk result (λ th. Gives log.new th.0 (seq set.empty (disj p.now (neg p.now)))) }
{
    let against = deny(log, p)?;
    let other = denied(log, p, against)?;
    let refuted = log.not_elim(against, other)?;
    conclude(log, p, refuted)
}

/// `{n} : n` for `~(p | ~p)`
#[tactic(none)]
fn deny(log: &mut Log, p: &Term) -> Result<ThmId, NoMemory>
    requires { IsFormula log.old.env.sig p.now }
    ensures kept { Extends log.old log.new }
    ensures facts { SameFacts log.old log.new }
    ensures gives { IfOk result (λ th. Gives log.new th.0 (seq (only (neg (disj p.now (neg p.now)))) (neg (disj p.now (neg p.now))))) }
{
    let against = denial(log.allocator(), p)?;
    log.assume_own(against)
}

/// From `G : false` to `G - ~(p | ~p) : p | ~p`.
#[tactic(none)]
fn conclude(log: &mut Log, p: &Term, refuted: ThmId) -> Result<ThmId, NoMemory>
    requires p { IsFormula log.old.env.sig p.now }
    requires refuted { IsThm log.old refuted.0 }
    requires fits { (thm log.old refuted.0).concl ≡ falsum }
    ensures kept { Extends log.old log.new }
    ensures facts { SameFacts log.old log.new }
    ensures gives { IfOk result (λ th. Gives log.new th.0 (seq (set.remove (thm log.old refuted.0).hyps (neg (disj p.now (neg p.now)))) (disj p.now (neg p.now)))) }
{
    let whole = middle(log.allocator(), p)?;
    log.classical_own(whole, refuted)
}

/// From `G : c` and `D : c` to `(G - p) + (D - ~p) : c`.
#[tactic(none)]
pub fn cases(log: &mut Log, p: &Term, yes: ThmId, no: ThmId) -> Result<ThmId, NoMemory>
    requires p { IsFormula log.old.env.sig p.now }
    requires yes { IsThm log.old yes.0 }
    requires no { IsThm log.old no.0 }
    requires alike { (thm log.old yes.0).concl ≡ (thm log.old no.0).concl }
    ensures kept { Extends log.old log.new }
    ensures facts { SameFacts log.old log.new }
    ensures gives { IfOk result (λ th. Gives log.new th.0 (seq (set.union (set.remove (thm log.old yes.0).hyps p.now) (set.remove (thm log.old no.0).hyps (neg p.now))) (thm log.old yes.0).concl)) }
{
    let either = excluded_middle(log, p)?;
    log.or_elim(either, yes, no)
}
