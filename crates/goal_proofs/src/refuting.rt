ghost use Rattle.std.specs.Prelude.{◌≡◌, ◌++◌, IsTrue, IfOk};
ghost use Rattle.fo_infer.specs.Inferences.{tagged_position};
ghost use Rattle.fo_infer.specs.Lines.{Refutes as LinesRefute};
ghost use Rattle.kernel_rules.specs.Derivations.{leaves};
ghost use Rattle.hol_kernel.specs.Growth.{Extends, SameFacts};
ghost use Rattle.goal_search.specs.Fitting.{AllFit, goal_fits};
ghost use Rattle.goal_search.specs.Encoded.{inputs, encoded, signs_in};
ghost use Rattle.goal_proofs.specs.inner.Sourced.{AreSourced, Refutes};

use crate::sourcing::{Sourced, sources};
use fo_infer::Refutation;
use goal_search::{Encoded, encode};
use hol_kernel::{Log, ThmId};
use hol_lift::lift;
use std::alloc::Global;
use text_kit::NoMemory;

/// A refutation of clauses that have theorems, as a theorem.
fn refuted(
    alloc: Global,
    log: &mut Log,
    sourced: &Sourced,
    r: &Refutation,
) -> Result<ThmId, NoMemory>
    requires sourced { AreSourced log.old sourced.now }
    requires refutes { LinesRefute tagged_position (encoded (signs_in log.old.env.sig sourced.now.listing) sourced.now.listing.clauses) r.now.lines }
    ensures kept { Extends log.old log.new }
    ensures facts { SameFacts log.old log.new }
    ensures gives { IfOk result (λ t. Refutes log.new t.0) }
{
    let listing = &sourced.listing;
    let Encoded { signs, clauses } = encode(
        alloc,
        &log.env().sig,
        &listing.table,
        &listing.clauses,
    )?;
    lift(
        log,
        alloc,
        signs.symbols.as_slice(),
        &clauses,
        &sourced.thms,
        r,
    )
}

/// A refutation of the goal's inputs as a theorem that rests on these facts and the negated goal.
pub fn refute(
    alloc: Global,
    log: &mut Log,
    facts: &[u32],
    r: &Refutation,
) -> Result<ThmId, NoMemory>
    requires facts { AllFit log.old.env facts.now }
    requires goal { IsTrue (goal_fits log.old.env) }
    requires refutes { LinesRefute tagged_position (inputs log.old.env facts.now) r.now.lines }
    ensures kept { Extends log.old log.new }
    ensures facts { IfOk result (λ _. leaves log.new.steps ≡ leaves log.old.steps ++ facts.now) }
    ensures gives { IfOk result (λ t. Refutes log.new t.0) }
{
    let sourced = sources(alloc, log, facts)?;
    refuted(alloc, log, &sourced, r)
}
