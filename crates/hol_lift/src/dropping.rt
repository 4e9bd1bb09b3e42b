ghost use Rattle.std.specs.Prelude.{◌≡◌, ◌↔◌, [], ◌∷◌, IsTrue, IfOk};
ghost use Rattle.hol_terms.specs.Formulas.{IsFormula};
ghost use Rattle.hol_kernel.specs.Logs.{IsThm};
ghost use Rattle.hol_kernel.specs.Growth.{Extends, SameFacts};
ghost use Rattle.hol_lift.specs.inner.Typed.{AllFormulas, Drops, IsIdentity, IsRefuted};

use hol_clauses::{TypedLiteral, reflexivity};
use hol_kernel::{Log, ThmId};
use hol_terms::{Term, same};
use kernel_rules::{is_equation, left, right};
use text_kit::NoMemory;

/// Whether the term is `t = t`.
fn is_identity(t: &Term) -> bool
    ensures { IsTrue result ↔ IsIdentity t.now }
{
    if !is_equation(t) {
        return false;
    }
    same(left(t), right(t))
}

/// Whether the literal is `~(t = t)`.
fn is_refuted(l: &TypedLiteral) -> bool
    ensures { IsTrue result ↔ IsRefuted l.now }
{
    if l.positive {
        return false;
    }
    is_identity(&l.atom)
}

/// The theorem without `t = t` as a hypothesis, where the literal is `~(t = t)`.
#[tactic(none)]
pub fn drop_one(log: &mut Log, l: &TypedLiteral, th: ThmId) -> Result<ThmId, NoMemory>
    requires atom { IsFormula log.old.env.sig l.now.atom }
    requires th { IsThm log.old th.0 }
    ensures kept { Extends log.old log.new }
    ensures facts { SameFacts log.old log.new }
    ensures gives { IfOk result (λ r. Drops log.old log.new (l.now ∷ []) th.0 r.0) }
{
    if is_refuted(l) {
        reflexivity(log, left(&l.atom), th)
    } else {
        Ok(th)
    }
}

/// The theorem without `t = t` as a hypothesis for each literal `~(t = t)`.
pub fn drop_refuted(log: &mut Log, literals: &[TypedLiteral], th: ThmId) -> Result<ThmId, NoMemory>
    requires atoms { AllFormulas log.old.env.sig literals.now }
    requires th { IsThm log.old th.0 }
    ensures kept { Extends log.old log.new }
    ensures facts { SameFacts log.old log.new }
    ensures gives { IfOk result (λ r. Drops log.old log.new literals.now th.0 r.0) }
{
    let mut at = th;
    for l in literals {
        at = drop_one(log, l, at)?;
    }
    Ok(at)
}
