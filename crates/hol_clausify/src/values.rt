ghost use Rattle.std.specs.Prelude.{◌≡◌, IfOk};
ghost use Rattle.std.specs.FinSet as set;
ghost use Rattle.hol_terms.specs.Formulas.{IsFormula};
ghost use Rattle.hol_terms.specs.Substitution.{instantiated};
ghost use Rattle.hol_terms.specs.declared.term.Term.{Free};
ghost use Rattle.kernel_rules.specs.Connectives.{lambda, equal, chosen, right_of};
ghost use Rattle.kernel_rules.specs.Rules.{seq};
ghost use Rattle.hol_kernel.specs.Logs.{IsThm, thm};
ghost use Rattle.hol_kernel.specs.Growth.{Extends, Gives, SameFacts};
ghost use Rattle.formula_clauses.specs.Walks.{property};
ghost use Rattle.hol_clausify.specs.Places.{quantifier as quantified};
ghost use Rattle.hol_clausify.specs.Refutations.{chosen_value};
ghost use Rattle.hol_clausify.specs.inner.Opening.{IsVariable, IsChosen};

use crate::naming::{name_chosen, name_failing};
use hol_formulas::Quantifier;
use hol_kernel::{Log, ThmId};
use hol_terms::{Term, Ty, copy, copy_ty, instantiate};
use kernel_rules::right;
use std::alloc::Global;
use text_kit::{NoMemory, Shared};

/// A quantified formula opened with the next variable: this variable, the part for it, and the number of the one after it.
#[derive(Drop)]
pub struct WithVariable {
    pub value: Shared<Term>,
    pub part: Shared<Term>,
    pub next: u64,
}

/// A quantified formula opened with its chosen value: this value, the part for it, and the theorem by which it is called.
#[derive(Drop)]
pub struct WithChosen {
    pub value: Shared<Term>,
    pub part: Shared<Term>,
    pub name: ThmId,
}

/// The variable of this number and type.
fn variable(alloc: Global, n: u64, ty: &Ty) -> Result<Shared<Term>, NoMemory>
    ensures { IfOk result (λ r. r ≡ Free n ty.now) }
{
    Shared::new(alloc, Term::Free(n, copy_ty(ty)?))
}

/// The part for the next variable.
pub fn open_variable(
    alloc: Global,
    ty: &Ty,
    body: &Term,
    next: u64,
) -> Result<WithVariable, NoMemory>
    ensures { IfOk result (λ r. IsVariable ty.now body.now next r) }
{
    let Some(more) = next.checked_add(1) else {
        return Err(NoMemory);
    };
    let value = variable(alloc, next, ty)?;
    let part = Shared::new(alloc, instantiate(alloc, body, value.get())?)?;
    Ok(WithVariable {
        value,
        part,
        next: more,
    })
}

/// The equation between the value that the kernel chooses and the one that a clause has.
#[tactic(none)]
fn name(
    log: &mut Log,
    quantifier: Quantifier,
    ty: &Ty,
    f: &Term,
    body: &Term,
) -> Result<ThmId, NoMemory>
    requires whole { IsFormula log.old.env.sig (quantified quantifier ty.now (lambda ty.now body.now)) }
    requires property { f.now ≡ lambda ty.now body.now }
    ensures kept { Extends log.old log.new }
    ensures facts { SameFacts log.old log.new }
    ensures gives { IfOk result (λ r. Gives log.new r.0 (seq set.empty (equal ty.now (chosen ty.now (property quantifier ty.now body.now)) (chosen_value ty.now (property quantifier ty.now body.now))))) }
{
    match quantifier {
        Quantifier::Ex => name_chosen(log, ty, f),
        Quantifier::All => name_failing(log, ty, body),
    }
}

/// The part for the value that a theorem names.
fn open_named(alloc: Global, log: &Log, body: &Term, name: ThmId) -> Result<WithChosen, NoMemory>
    requires { IsThm log.now name.0 }
    ensures value { IfOk result (λ r. r.value ≡ right_of (thm log.now name.0).concl) }
    ensures part { IfOk result (λ r. r.part ≡ instantiated body.now (right_of (thm log.now name.0).concl)) }
    ensures name { IfOk result (λ r. r.name ≡ name) }
{
    let value = Shared::new(alloc, copy(right(log.conclusion(name)))?)?;
    let part = Shared::new(alloc, instantiate(alloc, body, value.get())?)?;
    Ok(WithChosen { value, part, name })
}

/// The part for the chosen value.
#[tactic(none)]
pub fn open_chosen(
    log: &mut Log,
    quantifier: Quantifier,
    ty: &Ty,
    f: &Term,
    body: &Term,
) -> Result<WithChosen, NoMemory>
    requires whole { IsFormula log.old.env.sig (quantified quantifier ty.now (lambda ty.now body.now)) }
    requires property { f.now ≡ lambda ty.now body.now }
    ensures kept { Extends log.old log.new }
    ensures facts { SameFacts log.old log.new }
    ensures gives { IfOk result (λ r. IsChosen log.new quantifier ty.now body.now r) }
{
    let name = name(log, quantifier, ty, f, body)?;
    open_named(log.allocator(), &*log, body, name)
}
