ghost use Rattle.std.specs.Prelude.{◌≡◌, IfOk, map};
ghost use Rattle.fo_terms.specs.Substitution.{put_literals};
ghost use Rattle.tagged_terms.specs.Readings.{signs_of};
ghost use Rattle.tagged_terms.specs.Fits.{typed_put};
ghost use Rattle.kernel_rules.specs.Connectives.{falsum};
ghost use Rattle.hol_kernel.specs.Logs.{IsThm, thm};
ghost use Rattle.hol_kernel.specs.Growth.{Extends, SameFacts};
ghost use Rattle.clause_instances.specs.Images.{image};
ghost use Rattle.clause_instances.specs.Theorems.{clause_of, AreSigns, HasInstance, Lands, binding as binding_of};

use crate::at_once::instantiate_at_once;
use crate::gathering::variables;
use crate::image::{Image, variable_image};
use fo_terms::Literal;
use hol_clauses::Binding;
use hol_kernel::{Log, ThmId};
use hol_terms::{Term, Ty, copy_ty};
use std::alloc::Global;
use tagged_lines::TypedVariable;
use tagged_terms::{Symbol, decode};
use text_kit::{NoMemory, Rows};

/// The typed term that is put for a variable of the type.
fn term_put(alloc: Global, symbols: &[Symbol], u: &Image, x: u64, ty: &Ty) -> Result<Term, NoMemory>
    ensures { IfOk result (λ d. d ≡ typed_put (signs_of symbols.now) (image u.now.by u.now.binds.now u.now.seen.now) x ty.now) }
{
    let put = variable_image(alloc, u, x)?;
    decode(alloc, symbols, &put, ty)
}

fn binding(
    alloc: Global,
    symbols: &[Symbol],
    u: &Image,
    v: &TypedVariable,
) -> Result<Binding, NoMemory>
    ensures { IfOk result (λ b. b ≡ binding_of (signs_of symbols.now) (image u.now.by u.now.binds.now u.now.seen.now) v.now) }
{
    let ty = copy_ty(&v.ty)?;
    let term = term_put(alloc, symbols, u, v.var, &v.ty)?;
    Ok(Binding {
        number: v.var,
        ty,
        term,
    })
}

/// Each typed variable, bound to the typed term that is put for it.
pub fn bindings(
    alloc: Global,
    symbols: &[Symbol],
    u: &Image,
    variables: &[TypedVariable],
) -> Result<Rows<Binding>, NoMemory>
    ensures { IfOk result (λ bs. bs ≡ map (binding_of (signs_of symbols.now) (image u.now.by u.now.binds.now u.now.seen.now)) variables.now) }
{
    let mut out = Rows::begin(alloc);
    for v in variables {
        out.push(binding(alloc, symbols, &*u, v)?)?;
    }
    Ok(out)
}

/// From the theorem of a tagged clause to the one of its instance: all that an inference puts for the clause's variables
/// is put into the theorem at once.
#[tactic(none)]
pub fn instance(
    log: &mut Log,
    alloc: Global,
    symbols: &[Symbol],
    u: &Image,
    literals: &[Literal],
    th: ThmId,
) -> Result<ThmId, NoMemory>
    requires symbols { AreSigns log.old.env.sig (signs_of symbols.now) }
    requires fits { HasInstance log.old.env.sig (signs_of symbols.now) (image u.now.by u.now.binds.now u.now.seen.now) literals.now }
    requires th { IsThm log.old th.0 }
    requires false_is { (thm log.old th.0).concl ≡ falsum }
    ensures kept { Extends log.old log.new }
    ensures facts { SameFacts log.old log.new }
    ensures gives { IfOk result (λ r. Lands log.old log.new th.0 (clause_of (signs_of symbols.now) literals.now) r.0 (clause_of (signs_of symbols.now) (put_literals (image u.now.by u.now.binds.now u.now.seen.now) literals.now))) }
{
    let found = variables(alloc, symbols, literals)?;
    let put = bindings(alloc, symbols, u, found.as_slice())?;
    instantiate_at_once(log, alloc, put.as_slice(), th)
}
