ghost use Rattle.std.specs.Prelude.{◌≡◌, ◌∷◌, ◌++◌, IfOk};
ghost use Rattle.std.specs.FinSet as set;
ghost use Rattle.hol_terms.specs.Formulas.{IsFormula};
ghost use Rattle.kernel_rules.specs.Rules.{seq};
ghost use Rattle.hol_kernel.specs.Growth.{Extends, Gives, SameFacts};
ghost use Rattle.lambda_lift.specs.Standing.{Each, StandsAlone};
ghost use Rattle.lambda_lift.specs.Tables.{expand as expand_of};
ghost use Rattle.lambda_lift.specs.Equations.{equation as equation_of};
ghost use Rattle.lambda_lift.specs.Redexes.{redexes as redexes_of, side_redexes};
ghost use Rattle.lambda_lift.specs.Wholes.{conjunction};
ghost use Rattle.hol_clausify.specs.inner.Identities.{first_aux as first_aux_of, IsEquation, IsOf};

use crate::identity::identity;
use hol_derived::beta_expand;
use hol_kernel::{Log, ThmId};
use hol_terms::{Konst, Term};
use lambda_lift::{Aux, Table, expand, put_side_redexes, raw_equation, redexes};
use std::alloc::Global;
use text_kit::{NoMemory, Rows};

/// The number of the first auxiliary constant of a term, from the left.
fn first_aux(t: &Term) -> Option<u64>
    ensures { result ≡ first_aux_of t.now }
{
    match t {
        Term::Con(Konst::Aux(k)) => Some(*k),
        Term::App(f, x) => match first_aux(f.get()) {
            Some(k) => Some(k),
            None => first_aux(x.get()),
        },
        Term::Lam(_, b) => first_aux(b.get()),
        _ => None,
    }
}

/// The paths of the redexes that lead from an expanded equation to one with the same term on both sides.
fn paths_to_identity(
    alloc: Global,
    number: u64,
    entry: &Aux,
    t: &Term,
) -> Result<Rows<Rows<u8>>, NoMemory>
    ensures { IfOk result (λ paths. paths ≡ redexes_of (equation_of number entry.now) t.now ++ side_redexes number entry.now) }
{
    let raw = raw_equation(alloc, number, entry)?;
    let mut paths = redexes(alloc, &raw, t)?;
    put_side_redexes(alloc, &mut paths, number, entry)?;
    Ok(paths)
}

/// `{} : E` for the lifted equation of an entry, expanded.
#[tactic(none)]
fn entry_stands(
    log: &mut Log,
    alloc: Global,
    table: &Table,
    number: u64,
    entry: &Aux,
    t: &Term,
) -> Result<ThmId, NoMemory>
    requires table { Each (StandsAlone log.old.env.sig) table.now }
    requires t { IsOf log.old.env.sig table.now number entry.now t.now }
    requires formula { IsFormula log.old.env.sig (expand_of table.now t.now) }
    ensures kept { Extends log.old log.new }
    ensures facts { SameFacts log.old log.new }
    ensures gives { IfOk result (λ r. Gives log.new r.0 (seq set.empty (expand_of table.now t.now))) }
{
    let paths = paths_to_identity(alloc, number, entry, t)?;
    let target = expand(alloc, table, t)?;
    let same = identity(log, &entry.closed, &entry.closed)?;
    beta_expand(log, same, &target, &paths)
}

/// `{} : E` for a lifted equation of the table, expanded.
#[tactic(none)]
fn equation_stands(log: &mut Log, alloc: Global, table: &Table, t: &Term) -> Result<ThmId, NoMemory>
    requires table { Each (StandsAlone log.old.env.sig) table.now }
    requires t { IsEquation log.old.env.sig table.now t.now }
    requires formula { IsFormula log.old.env.sig (expand_of table.now t.now) }
    ensures kept { Extends log.old log.new }
    ensures facts { SameFacts log.old log.new }
    ensures gives { IfOk result (λ r. Gives log.new r.0 (seq set.empty (expand_of table.now t.now))) }
{
    let number = first_aux(t).unwrap_or(0);
    let entry = table.entries().at(number as usize);
    entry_stands(log, alloc, table, number, entry, t)
}

/// `{} : E1 & (.. & Em)` for lifted equations of the table, expanded.
#[cycle(stands)]
pub fn equations_stand(
    log: &mut Log,
    alloc: Global,
    table: &Table,
    first: &Term,
    more: &[Term],
) -> Result<ThmId, NoMemory>
    requires table { Each (StandsAlone log.old.env.sig) table.now }
    requires equations { Each (IsEquation log.old.env.sig table.now) (first.now ∷ more.now) }
    requires formulas { Each (λ t. IsFormula log.old.env.sig (expand_of table.now t)) (first.now ∷ more.now) }
    ensures kept { Extends log.old log.new }
    ensures facts { SameFacts log.old log.new }
    ensures gives { IfOk result (λ r. Gives log.new r.0 (seq set.empty (expand_of table.now (conjunction first.now more.now)))) }
{
    match more {
        [] => equation_stands(log, alloc, table, first),
        [second, rest @ ..] => with_others(log, alloc, table, first, second, rest),
    }
}

/// The same with the second equation apart.
#[cycle(stands)]
#[tactic(none)]
fn with_others(
    log: &mut Log,
    alloc: Global,
    table: &Table,
    first: &Term,
    second: &Term,
    rest: &[Term],
) -> Result<ThmId, NoMemory>
    requires table { Each (StandsAlone log.old.env.sig) table.now }
    requires equations { Each (IsEquation log.old.env.sig table.now) (first.now ∷ (second.now ∷ rest.now)) }
    requires formulas { Each (λ t. IsFormula log.old.env.sig (expand_of table.now t)) (first.now ∷ (second.now ∷ rest.now)) }
    ensures kept { Extends log.old log.new }
    ensures facts { SameFacts log.old log.new }
    ensures gives { IfOk result (λ r. Gives log.new r.0 (seq set.empty (expand_of table.now (conjunction first.now (second.now ∷ rest.now))))) }
{
    let one = equation_stands(log, alloc, table, first)?;
    let others = equations_stand(log, alloc, table, second, rest)?;
    log.and_intro(one, others)
}
