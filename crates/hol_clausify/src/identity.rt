ghost use Rattle.std.specs.Prelude.{◌≡◌, false, IfOk};
ghost use Rattle.std.specs.FinSet as set;
ghost use Rattle.hol_terms.specs.Substitution.{instantiated, occurs};
ghost use Rattle.hol_terms.specs.declared.term.Term.{Free};
ghost use Rattle.kernel_rules.specs.Rules.{seq};
ghost use Rattle.hol_kernel.specs.Conditions.{own_ty, IsGiven};
ghost use Rattle.hol_kernel.specs.Growth.{Extends, Gives, SameFacts};
ghost use Rattle.lambda_lift.specs.Equations.{run};
ghost use Rattle.hol_clausify.specs.inner.Identities.{identity as identity_of};

use hol_kernel::{Log, ThmId};
use hol_terms::{Term, Ty, copy_ty, free_in, instantiate};
use std::alloc::Global;
use text_kit::NoMemory;

/// A number whose variable of the type isn't in the term.
fn unused(ty: &Ty, t: &Term) -> Result<u64, NoMemory>
    ensures { IfOk result (λ n. occurs n ty.now t.now ≡ false) }
{
    for n in 0..u64::MAX {
        if !free_in(n, ty, t) {
            return Ok(n);
        }
    }
    Err(NoMemory)
}

/// The body of a lambda with a variable for the bound one.
#[tactic(none)]
fn opened(alloc: Global, n: u64, ty: &Ty, body: &Term) -> Result<Term, NoMemory>
    ensures { IfOk result (λ t. t ≡ instantiated body.now (Free n ty.now)) }
{
    let variable = Term::Free(n, copy_ty(ty)?);
    instantiate(alloc, body, &variable)
}

/// `{} : !x1..xn. b = b` for `\x1..xn. b`; `form` begins with the same lambdas.
#[tactic(none)]
pub fn identity(log: &mut Log, form: &Term, t: &Term) -> Result<ThmId, NoMemory>
    requires form { run form.now ≡ run t.now }
    requires t { IsGiven log.old.env.sig t.now (own_ty log.old.env.sig t.now) }
    ensures kept { Extends log.old log.new }
    ensures facts { SameFacts log.old log.new }
    ensures gives { IfOk result (λ th. Gives log.new th.0 (seq set.empty (identity_of (own_ty log.old.env.sig t.now) t.now))) }
{
    match t {
        Term::Lam(a, b) => match form {
            Term::Lam(_, inner) => {
                let n = unused(a, b.get())?;
                let body = opened(log.allocator(), n, a, b.get())?;
                let below = identity(log, inner.get(), &body);
                drop(body);
                log.all_intro(n, a, below?)
            }
            _ => log.refl(t),
        },
        _ => log.refl(t),
    }
}
