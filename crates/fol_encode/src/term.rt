ghost use Rattle.std.specs.Prelude.{◌≡◌, ◌-◌, [], ◌∷◌, length, IfOk};
ghost use Rattle.std.specs.Option.{option_copied};
ghost use Rattle.lambda_lift.specs.Scopes.{scope_types};
ghost use Rattle.fol_encode.specs.Encoding.{tagged as tagged_as, ty_of_sign as ty_said, numbered as numbered_as, constant as constant_as, application as application_as, coded, encoded};
ghost use Rattle.fol_encode.specs.Signs.{number_of};
ghost use Rattle.fol_encode.specs.declared.sign.Sign.TheVariants as sign;
ghost use Rattle.fo_terms.specs.Substitution.{var, fun};

use crate::occurring::{result_of, truth_values, variable_ty};
use crate::sign::{Sign, key_of_apply, key_of_konst, key_of_tag};
use crate::signs::{Signs, number};
use fo_terms::FoTerm;
use hol_terms::{Konst, Term, Ty, arrow, copy_ty};
use lambda_lift::Scope;
use std::alloc::Global;
use text_kit::{NoMemory, Rows};

/// A term that is to be tagged: its type, and the core below the tag.
#[derive(Debug, Drop)]
pub struct Coded {
    pub ty: Ty,
    pub core: FoTerm,
}

/// The number of quantifiers around a place.
pub fn depth(scope: &Scope) -> Result<u64, NoMemory>
    ensures { IfOk result (λ n. n ≡ length (scope_types scope.now)) }
{
    match scope {
        Scope::Outside => Ok(0),
        Scope::Under(_, rest) => match depth(*rest)?.checked_add(1) {
            Some(n) => Ok(n),
            None => Err(NoMemory),
        },
    }
}

fn index(scope: &Scope, i: u64) -> Result<FoTerm, NoMemory>
    ensures { IfOk result (λ t. t ≡ var (length (scope_types scope.now) - 1 - i)) }
{
    Ok(FoTerm::Var(depth(scope)?.saturating_sub(1).saturating_sub(i)))
}

/// The term with its tag.
fn tagged(alloc: Global, signs: &Signs, d: Coded) -> Result<FoTerm, NoMemory>
    ensures { IfOk result (λ t. t ≡ tagged_as signs.now.signs d) }
{
    let f = number(signs, &key_of_tag(alloc, &d.ty)?);
    let mut args = Rows::begin(alloc);
    args.push(d.core)?;
    Ok(FoTerm::Fun(f, args))
}

/// The type that a sign says of its constant.
fn ty_of_sign(s: Option<&Sign>) -> Result<Ty, NoMemory>
    ensures { IfOk result (λ a. a ≡ ty_said (option_copied s.entry)) }
{
    match s {
        Some(Sign::Constant(_, a)) => copy_ty(a),
        Some(Sign::Tag(_)) => Ok(truth_values()),
        Some(Sign::Apply) => Ok(truth_values()),
        None => Ok(truth_values()),
    }
}

fn numbered(alloc: Global, signs: &Signs, f: u64) -> Result<Coded, NoMemory>
    ensures { IfOk result (λ d. d ≡ numbered_as signs.now.signs f) }
{
    let ty = ty_of_sign(signs.signs.get(f as usize))?;
    Ok(Coded {
        ty,
        core: FoTerm::Fun(f, Rows::begin(alloc)),
    })
}

fn constant(alloc: Global, signs: &Signs, k: &Konst) -> Result<Coded, NoMemory>
    ensures { IfOk result (λ d. d ≡ constant_as signs.now.signs k.now) }
{
    let f = number(signs, &key_of_konst(alloc, k)?);
    numbered(alloc, signs, f)
}

/// The application of one tagged term to another.
fn apply(alloc: Global, signs: &Signs, f: FoTerm, x: FoTerm) -> Result<FoTerm, NoMemory>
    ensures { IfOk result (λ t. t ≡ fun (number_of signs.now.signs sign.Apply) (f ∷ x ∷ [])) }
{
    let n = number(signs, &key_of_apply(alloc)?);
    let mut args = Rows::begin(alloc);
    args.push(f)?;
    args.push(x)?;
    Ok(FoTerm::Fun(n, args))
}

fn application(alloc: Global, signs: &Signs, f: Coded, x: Coded) -> Result<Coded, NoMemory>
    ensures { IfOk result (λ d. d ≡ application_as signs.now.signs f x) }
{
    let ty = result_of(&f.ty)?;
    let function = tagged(alloc, signs, f)?;
    let argument = tagged(alloc, signs, x)?;
    let core = apply(alloc, signs, function, argument)?;
    Ok(Coded { ty, core })
}

/// A term below its tag.
fn code(alloc: Global, signs: &Signs, scope: &Scope, t: &Term) -> Result<Coded, NoMemory>
    ensures { IfOk result (λ d. d ≡ coded signs.now.signs t.now (scope_types scope.now)) }
{
    match t {
        Term::Bound(i) => Ok(Coded {
            ty: variable_ty(scope, *i)?,
            core: index(scope, *i)?,
        }),
        Term::Free(n, a) => Ok(Coded {
            ty: copy_ty(a)?,
            core: FoTerm::Var(*n),
        }),
        Term::Con(k) => constant(alloc, signs, k),
        Term::App(f, x) => {
            let function = code(alloc, signs, &*scope, f.get())?;
            let argument = code(alloc, signs, &*scope, x.get())?;
            application(alloc, signs, function, argument)
        }
        Term::Lam(a, b) => {
            let body = code(alloc, signs, &Scope::Under(&*a, &*scope), b.get())?;
            Ok(Coded {
                ty: arrow(alloc, copy_ty(a)?, copy_ty(&body.ty)?)?,
                core: FoTerm::Var(0),
            })
        }
    }
}

/// A term with its tag.
pub fn encode(alloc: Global, signs: &Signs, scope: &Scope, t: &Term) -> Result<FoTerm, NoMemory>
    ensures { IfOk result (λ d. d ≡ encoded signs.now.signs t.now (scope_types scope.now)) }
{
    let below = code(alloc, signs, scope, t)?;
    tagged(alloc, signs, below)
}
