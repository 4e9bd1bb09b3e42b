ghost use Rattle.std.specs.Prelude.{IfOk};
ghost use Rattle.hyp_sets.specs.Sets.{only};
ghost use Rattle.hol_terms.specs.Formulas.{IsFormula};
ghost use Rattle.hol_kernel.specs.Growth.{Extends, SameFacts};
ghost use Rattle.hol_clausify.specs.inner.Parts.{first_of, second_of, whole_of_both};
ghost use Rattle.hol_clausify.specs.inner.Refuting.{IsFalse, BothLand};

use hol_kernel::{Log, ThmId};
use hol_refutations::{equal_first, equal_second, implies, not_and, not_equal, or_both};
use hol_terms::Term;
use text_kit::NoMemory;

/// A whole of two formulas that is refuted from a part of each: of an equation at bool the clauses are those of two
/// implications, and of its negation those of its sides and those of their negations.
#[derive(Clone, Copy)]
pub enum Pair {
    NotAnd,
    Or,
    Implies,
    EqualFirst,
    EqualSecond,
    NotEqualFirst,
    NotEqualSecond,
}

/// A refutation of the whole from refutations of both parts.
pub fn refute_from_both(
    log: &mut Log,
    pair: Pair,
    a: &Term,
    b: &Term,
    left: ThmId,
    right: ThmId,
) -> Result<ThmId, NoMemory>
    requires a { IsFormula log.old.env.sig a.now }
    requires b { IsFormula log.old.env.sig b.now }
    requires whole { IsFormula log.old.env.sig (whole_of_both pair a.now b.now) }
    requires left { IsFalse log.old left.0 }
    requires right { IsFalse log.old right.0 }
    ensures kept { Extends log.old log.new }
    ensures facts { SameFacts log.old log.new }
    ensures gives { IfOk result (λ r. BothLand log.old log.new (first_of pair a.now) left.0 (second_of pair b.now) right.0 (only (whole_of_both pair a.now b.now)) r.0) }
{
    match pair {
        Pair::NotAnd => not_and(log, a, b, left, right),
        Pair::Or => or_both(log, a, b, left, right),
        Pair::Implies => implies(log, a, b, left, right),
        Pair::EqualFirst => equal_first(log, a, b, left, right),
        Pair::EqualSecond => equal_second(log, a, b, left, right),
        Pair::NotEqualFirst => not_equal(log, a, b, left, right),
        Pair::NotEqualSecond => not_equal(log, a, b, right, left),
    }
}
