ghost use Rattle.std.specs.Prelude.{◌≡◌, ℕ, ◌*◌, ◌≤◌, ◌∷◌, Some};
ghost use Rattle.hol_terms.specs.Types.{bool_ty, function_ty};
ghost use Rattle.hol_terms.specs.Typing.{type_in};
ghost use Rattle.kernel_rules.specs.Connectives.{constant as constant_term, apply, lambda as lambda_term};
ghost use Rattle.model_truth.specs.Sizes.{size as size_of};
ghost use Rattle.fin_model.specs.Limits.{product as product_of};
ghost use Rattle.fin_model.specs.inner.Around.{types_of, values_of};
ghost use Rattle.fin_model.specs.inner.Evaluation.{IsReady, IsWorth, Evaluates, Seeks, IsSmallSize, IsEntered, IsTyped, IsResult, IsSize, Sizes, index, variable};

use crate::around::{Around, nth};
use crate::constants::{bare, counted, sought, told, two};
use crate::digits::{digit, first_digit};
use crate::head::{Head, head_of_application};
use crate::sizes::size;
use crate::valued::looked_up;
use crate::world::World;
use crate::{EvalFault, Model};
use hol_terms::{Konst, Term, Ty, TypeFault, arrow, copy_ty, type_of};
use std::alloc::Global;

/// The greatest product of the sizes of the binders around a term.
const GREATEST_PRODUCT: u64 = 4_096;

/// The size of a type, where it isn't too big.
fn small_size(model: &Model, ty: &Ty) -> Result<u64, EvalFault>
    ensures { IsSmallSize (size_of model.now ty.now) result }
{
    match size(model, ty) {
        Some(n) => Ok(n),
        None => Err(EvalFault::TooBig),
    }
}

/// The product of the sizes inside one more binder, where it isn't too big.
fn entered(product: u64, count: u64) -> Result<u64, EvalFault>
    requires { (product ≤ 4096) × (count ≤ 65536) }
    ensures { IsEntered (product * count) result }
{
    let inside = product * count;
    if inside > GREATEST_PRODUCT {
        Err(EvalFault::TooBig)
    } else {
        Ok(inside)
    }
}

/// The type of a constant.
fn constant_ty(
    alloc: Global,
    world: &World,
    around: &Around,
    t: &Term,
    k: &Konst,
) -> Result<Ty, EvalFault>
    requires is { t.now ≡ constant_term k.now }
    requires typed { (a : Ty) × (type_in world.now.sig.now t.now (types_of around.now) ≡ Some a) }
    ensures { IsTyped world.now (types_of around.now) t.now result }
{
    match type_of(alloc, world.sig, t) {
        Ok(ty) => Ok(ty),
        Err(TypeFault::IllTyped) => unreachable!(),
        Err(TypeFault::NoMemory) => Err(EvalFault::NoMemory),
    }
}

/// The type of what a function of this type gives.
fn result_ty(ty: &Ty) -> Result<Ty, EvalFault>
    ensures { (a b : Ty) → ty.now ≡ function_ty a b → IsResult b result }
{
    match ty {
        Ty::Base(_) => Err(EvalFault::NoMemory),
        Ty::Arrow(_, to) => Ok(copy_ty(to.get())?),
    }
}

/// The type of a term that has one.
#[cycle(typing)]
fn ty_under(alloc: Global, world: &World, t: &Term, around: &Around) -> Result<Ty, EvalFault>
    requires { (a : Ty) × (type_in world.now.sig.now t.now (types_of around.now) ≡ Some a) }
    ensures { IsTyped world.now (types_of around.now) t.now result }
{
    match t {
        Term::Bound(i) => match nth(around, *i) {
            Some((a, _)) => Ok(copy_ty(a)?),
            None => unreachable!(),
        },
        Term::Free(_, a) => Ok(copy_ty(a)?),
        Term::Con(k) => constant_ty(alloc, world, around, t, k),
        Term::App(f, _) => {
            let function = ty_under(alloc, world, f.get(), &*around)?;
            result_ty(&function)
        }
        Term::Lam(a, b) => lambda_ty(alloc, world, &*a, b.get(), &*around),
    }
}

/// The type of a lambda that has one.
#[cycle(typing)]
fn lambda_ty(
    alloc: Global,
    world: &World,
    ty: &Ty,
    b: &Term,
    around: &Around,
) -> Result<Ty, EvalFault>
    requires { (a : Ty) × (type_in world.now.sig.now (lambda_term ty.now b.now) (types_of around.now) ≡ Some a) }
    ensures { IsTyped world.now (types_of around.now) (lambda_term ty.now b.now) result }
{
    let to = ty_under(alloc, world, b, &Around::Under(&*ty, 0, &*around))?;
    Ok(arrow(alloc, copy_ty(ty)?, to)?)
}

/// The size of a term's type, where it isn't too big.
fn size_under(alloc: Global, world: &World, t: &Term, around: &Around) -> Result<u64, EvalFault>
    requires { (a : Ty) × (type_in world.now.sig.now t.now (types_of around.now) ≡ Some a) }
    ensures { Sizes world.now (types_of around.now) t.now result }
{
    let ty = ty_under(alloc, world, t, around)?;
    small_size(world.model, &ty)
}

/// The value of a bound variable.
fn bound(world: &World, around: &Around, i: u64) -> u64
    requires ready { IsReady world.now (types_of around.now) (values_of around.now) (index i) }
    requires size { (n : ℕ) × IsSize world.now (types_of around.now) (index i) n }
    ensures { IsWorth world.now (types_of around.now) (values_of around.now) (index i) result }
{
    match nth(around, i) {
        Some((_, value)) => value,
        None => unreachable!(),
    }
}

/// The value of a free variable.
fn free(world: &World, around: &Around, n: u64, ty: &Ty) -> u64
    requires ready { IsReady world.now (types_of around.now) (values_of around.now) (variable n ty.now) }
    requires size { (k : ℕ) × IsSize world.now (types_of around.now) (variable n ty.now) k }
    ensures { IsWorth world.now (types_of around.now) (values_of around.now) (variable n ty.now) result }
{
    looked_up(world.free.as_slice(), n, ty)
}

/// The value of a constant that stands alone.
fn constant(world: &World, around: &Around, k: &Konst) -> u64
    requires ready { IsReady world.now (types_of around.now) (values_of around.now) (constant_term k.now) }
    requires size { (n : ℕ) × IsSize world.now (types_of around.now) (constant_term k.now) n }
    ensures { IsWorth world.now (types_of around.now) (values_of around.now) (constant_term k.now) result }
{
    bare(world.sig, world.model, k)
}

/// The value of a term under binders, of which the sizes have this product.
#[tactic(none)]
#[cycle(evaluating)]
pub(crate) fn worth(
    alloc: Global,
    world: &World,
    t: &Term,
    around: &Around,
    product: u64,
) -> Result<u64, EvalFault>
    requires ready { IsReady world.now (types_of around.now) (values_of around.now) t.now }
    requires product { product ≡ product_of world.now.model.now (types_of around.now) }
    ensures { Evaluates world.now (types_of around.now) (values_of around.now) t.now result }
{
    let size = size_under(alloc, world, t, &*around)?;
    match t {
        Term::Bound(i) => Ok(bound(world, around, *i)),
        Term::Free(n, a) => Ok(free(world, around, *n, a)),
        Term::Con(k) => Ok(constant(world, around, k)),
        Term::App(f, x) => application(alloc, world, f.get(), x.get(), &*around, product, size),
        Term::Lam(a, b) => lambda(alloc, world, &*a, b.get(), &*around, product),
    }
}

/// The value of an application, the type of which has this size.
#[tactic(none)]
#[cycle(evaluating)]
fn application(
    alloc: Global,
    world: &World,
    f: &Term,
    x: &Term,
    around: &Around,
    product: u64,
    size: u64,
) -> Result<u64, EvalFault>
    requires ready { IsReady world.now (types_of around.now) (values_of around.now) (apply f.now x.now) }
    requires product { product ≡ product_of world.now.model.now (types_of around.now) }
    requires size { IsSize world.now (types_of around.now) (apply f.now x.now) size }
    ensures { Evaluates world.now (types_of around.now) (values_of around.now) (apply f.now x.now) result }
{
    match head_of_application(f) {
        Head::Binder(k, a) => {
            let found = first(alloc, world, a, x, sought(k), &*around, product)?;
            Ok(told(k, found))
        }
        Head::Not => {
            let value = worth(alloc, world, x, &*around, product)?;
            Ok(if value == 1 { 0 } else { 1 })
        }
        Head::Two(k, y) => {
            let left = worth(alloc, world, y, &*around, product)?;
            let right = worth(alloc, world, x, &*around, product)?;
            Ok(two(k, left, right))
        }
        Head::Other => {
            let function = worth(alloc, world, f, &*around, product)?;
            let argument = worth(alloc, world, x, &*around, product)?;
            Ok(digit(size, function, argument))
        }
    }
}

/// The first value of the type at which the property gives what is wanted.
#[tactic(none)]
#[cycle(evaluating)]
fn first(
    alloc: Global,
    world: &World,
    ty: &Ty,
    x: &Term,
    wanted: bool,
    around: &Around,
    product: u64,
) -> Result<Option<u64>, EvalFault>
    requires ready { IsReady world.now (types_of around.now) (values_of around.now) x.now }
    requires product { product ≡ product_of world.now.model.now (types_of around.now) }
    requires typed { type_in world.now.sig.now x.now (types_of around.now) ≡ Some (function_ty ty.now bool_ty) }
    ensures { Seeks world.now (types_of around.now) (values_of around.now) ty.now x.now wanted result }
{
    match x {
        Term::Lam(a, b) => first_under(alloc, world, &*a, b.get(), wanted, &*around, product),
        _ => {
            let value = worth(alloc, world, x, &*around, product)?;
            Ok(first_digit(counted(world.model, ty), value, wanted))
        }
    }
}

/// The first value of the bound variable at which the body gives what is wanted.
#[tactic(none)]
#[cycle(evaluating)]
fn first_under(
    alloc: Global,
    world: &World,
    ty: &Ty,
    b: &Term,
    wanted: bool,
    around: &Around,
    product: u64,
) -> Result<Option<u64>, EvalFault>
    requires ready { IsReady world.now (types_of around.now) (values_of around.now) (lambda_term ty.now b.now) }
    requires product { product ≡ product_of world.now.model.now (types_of around.now) }
    requires typed { type_in world.now.sig.now b.now (ty.now ∷ types_of around.now) ≡ Some bool_ty }
    ensures { Seeks world.now (types_of around.now) (values_of around.now) ty.now (lambda_term ty.now b.now) wanted result }
{
    let count = small_size(world.model, ty)?;
    let inside = entered(product, count)?;
    for v in 0..count {
        let value = worth(alloc, world, b, &Around::Under(&*ty, v, &*around), inside)?;
        if (value == 1) == wanted {
            return Ok(Some(v));
        }
    }
    Ok(None)
}

/// The value of a lambda: the number whose digits are the values of the body.
#[tactic(none)]
#[cycle(evaluating)]
fn lambda(
    alloc: Global,
    world: &World,
    ty: &Ty,
    b: &Term,
    around: &Around,
    product: u64,
) -> Result<u64, EvalFault>
    requires ready { IsReady world.now (types_of around.now) (values_of around.now) (lambda_term ty.now b.now) }
    requires product { product ≡ product_of world.now.model.now (types_of around.now) }
    requires size { (n : ℕ) × IsSize world.now (types_of around.now) (lambda_term ty.now b.now) n }
    ensures { Evaluates world.now (types_of around.now) (values_of around.now) (lambda_term ty.now b.now) result }
{
    let count = small_size(world.model, ty)?;
    let inside = entered(product, count)?;
    let base = size_under(alloc, world, b, &Around::Under(&*ty, 0, &*around))?;
    let mut number = 0;
    for i in 0..count {
        let v = count - 1 - i;
        let value = worth(alloc, world, b, &Around::Under(&*ty, v, &*around), inside)?;
        number = number * base + value;
    }
    Ok(number)
}
