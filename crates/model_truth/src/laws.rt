ghost use Rattle.model_truth.specs.Laws.{ValueIsOfItsType, FunctionsAreTheirValues, SubstitutionUpdates, AbstractionUpdates, ReplacementUpdates, ValueIsOfItsVariables, RulesKeepTruth, DerivationsKeepTruth, CountermodelsRefute};

use crate::Model;
use hol_terms::{Env, Sig, Term, Ty};
use kernel_rules::{Sequent, Step};
use text_kit::Rows;

/// The value of a typed term is a value of its type.
pub fn value_is_of_its_type(sig: &Sig, model: &Model, t: &Term)
    ensures { ValueIsOfItsType sig.now model.now t.now }
{}

/// Two functions that have the same value everywhere are one number.
pub fn functions_are_their_values(sig: &Sig, model: &Model, from: &Ty, to: &Ty)
    ensures { FunctionsAreTheirValues sig.now model.now from.now to.now }
{}

/// In `t[u]` the bound variable has the value of `u`.
pub fn substitution_updates(sig: &Sig, model: &Model, s: &Ty, t: &Term, u: &Term)
    ensures { SubstitutionUpdates sig.now model.now s.now t.now u.now }
{}

/// The lambda over a variable is worth at a value what the term is worth where the variable has that value.
pub fn abstraction_updates(sig: &Sig, model: &Model, n: u64, ty: &Ty, t: &Term)
    ensures { AbstractionUpdates sig.now model.now n ty.now t.now }
{}

/// With a term put for a variable, the variable has the term's value.
pub fn replacement_updates(sig: &Sig, model: &Model, n: u64, ty: &Ty, u: &Term, t: &Term)
    ensures { ReplacementUpdates sig.now model.now n ty.now u.now t.now }
{}

/// The value of a term depends on the variables that occur in it, and on no other.
pub fn value_is_of_its_variables(sig: &Sig, model: &Model, t: &Term)
    ensures { ValueIsOfItsVariables sig.now model.now t.now }
{}

/// Each of the kernel's rules gives a true sequent where it is given true ones. A fact is taken to be true.
pub fn rules_keep_truth(env: &Env, model: &Model, step: &Step, earlier: &Rows<Sequent>)
    ensures { RulesKeepTruth env.now model.now step.now earlier.now }
{}

/// Every sequent of a derivation from facts that are true in a model is true in it.
pub fn derivations_keep_truth(env: &Env, model: &Model, steps: &Rows<Step>)
    ensures { DerivationsKeepTruth env.now model.now steps.now }
{}

/// Where facts are true in a model and the goal isn't, no derivation from these facts proves the goal.
pub fn countermodels_refute(env: &Env, model: &Model, facts: &Rows<u32>)
    ensures { CountermodelsRefute env.now model.now facts.now }
{}
