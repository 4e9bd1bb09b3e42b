ghost use Rattle.std.specs.Prelude.{◌≡◌, ◌⊎◌, ℕ, ◌^◌, ◌<◌, ◌≤◌, IsTrue};
ghost use Rattle.hol_terms.specs.Types.{bool_ty};
ghost use Rattle.hol_terms.specs.declared.konst.Konst.TheVariants as konst;
ghost use Rattle.model_truth.specs.Numbers.{number};
ghost use Rattle.model_truth.specs.Sizes.{size as size_of, const_value};
ghost use Rattle.model_truth.specs.Values.{truth as truth_of, konst_value};
ghost use Rattle.fin_model.specs.Fitting.{fits};
ghost use Rattle.fin_model.specs.inner.Constants.{two_of, one_of, bound_ty, IsBare, sought as sought_of, told as told_of};

use crate::digits::first_digit;
use crate::sizes::{power, size};
use hol_terms::{Konst, Sig, Ty};
use model_truth::Model;

fn truth(holds: bool) -> u64
    ensures { result ≡ truth_of holds }
{
    if holds { 1 } else { 0 }
}

/// What a constant of two sides is worth with these.
pub(crate) fn two(k: &Konst, x: u64, y: u64) -> u64
    ensures { result ≡ two_of k.now x y }
{
    match k {
        Konst::And => truth(x == 1 && y == 1),
        Konst::Or => truth(x == 1 || y == 1),
        Konst::Imp => truth(!(x == 1) || y == 1),
        Konst::Eq(_) => truth(x == y),
        _ => 0,
    }
}

/// Whether a value is sought that has the property: 'every' looks for one that hasn't.
pub(crate) fn sought(k: &Konst) -> bool
    ensures { result ≡ sought_of k.now }
{
    !matches!(k, Konst::All(_))
}

/// What a quantifier or `Eps` is worth where this was the first value found.
pub(crate) fn told(k: &Konst, found: Option<u64>) -> u64
    ensures { result ≡ told_of k.now found }
{
    match (k, found) {
        (Konst::All(_), None) => 1,
        (Konst::Ex(_), Some(_)) => 1,
        (Konst::Eps(_), Some(v)) => v,
        _ => 0,
    }
}

/// What a constant of one argument is worth with this. The property of a quantifier is a number with `count` digits.
fn one(model: &Model, k: &Konst, count: u64, x: u64) -> u64
    requires bools { size_of model.now bool_ty ≡ 2 }
    requires count { count ≡ size_of model.now (bound_ty k.now) }
    ensures { result ≡ one_of model.now k.now x }
{
    match k {
        Konst::Not => truth(!(x == 1)),
        _ => told(k, first_digit(count, x, sought(k))),
    }
}

/// The function that a constant of two sides gives for the first.
fn row(k: &Konst, count: u64, x: u64) -> u64
    requires { 2 ^ count ≤ 65536 }
    ensures { result ≡ number 2 count (two_of k.now x) }
{
    let mut number = 0;
    for i in 0..count {
        number = number * 2 + two(k, x, count - 1 - i);
    }
    number
}

/// The number of a constant of two sides, each of `count` values; there are `rows` functions from them to bool.
fn rows(k: &Konst, count: u64, rows: u64) -> u64
    requires rows { rows ≡ 2 ^ count }
    requires small { rows ^ count ≤ 65536 }
    requires some { 0 < count }
    ensures { result ≡ number rows count (λ x. number 2 count (two_of k.now x)) }
{
    let mut number = 0;
    for i in 0..count {
        number = number * rows + row(k, count, count - 1 - i);
    }
    number
}

/// The number of a constant of one argument, which has `count` values and gives one of `base`; the property of a
/// quantifier has `digits` digits.
fn ones(model: &Model, k: &Konst, digits: u64, count: u64, base: u64) -> u64
    requires bools { size_of model.now bool_ty ≡ 2 }
    requires digits { digits ≡ size_of model.now (bound_ty k.now) }
    requires small { base ^ count ≤ 65536 }
    requires each { (x : ℕ) → one_of model.now k.now x < base }
    ensures { result ≡ number base count (one_of model.now k.now) }
{
    let mut number = 0;
    for i in 0..count {
        number = number * base + one(model, k, digits, count - 1 - i);
    }
    number
}

/// The number of predicates on so many values.
fn predicates(count: u64) -> u64
    requires { 2 ^ count ≤ 65536 }
    ensures { result ≡ 2 ^ count }
{
    match power(2, count) {
        Some(n) => n,
        None => unreachable!(),
    }
}

/// The size of a type that is known to be small.
pub(crate) fn counted(model: &Model, ty: &Ty) -> u64
    requires { size_of model.now ty.now ≤ 65536 }
    ensures { result ≡ size_of model.now ty.now }
{
    match size(model, ty) {
        Some(n) => n,
        None => unreachable!(),
    }
}

fn named(model: &Model, n: u32) -> u64
    ensures { result ≡ const_value model.now n }
{
    match model.consts.get(n as usize) {
        Some(v) => *v,
        None => 0,
    }
}

/// The number of `=` at a type.
fn equality(model: &Model, k: &Konst, a: &Ty) -> u64
    requires is { k.now ≡ konst.Eq a.now }
    requires bools { size_of model.now bool_ty ≡ 2 }
    requires some { 0 < size_of model.now a.now }
    requires small { (2 ^ size_of model.now a.now) ^ size_of model.now a.now ≤ 65536 }
    ensures { result ≡ konst_value model.now k.now }
{
    let count = counted(model, a);
    rows(k, count, predicates(count))
}

/// The number of a quantifier over a type.
fn quantifier(model: &Model, k: &Konst, a: &Ty) -> u64
    requires is { (k.now ≡ konst.All a.now) ⊎ (k.now ≡ konst.Ex a.now) }
    requires bools { size_of model.now bool_ty ≡ 2 }
    requires small { 2 ^ (2 ^ size_of model.now a.now) ≤ 65536 }
    ensures { result ≡ konst_value model.now k.now }
{
    let count = counted(model, a);
    ones(model, k, count, predicates(count), 2)
}

/// The number of `Eps` at a type.
fn choice(model: &Model, k: &Konst, a: &Ty) -> u64
    requires is { k.now ≡ konst.Eps a.now }
    requires bools { size_of model.now bool_ty ≡ 2 }
    requires some { 0 < size_of model.now a.now }
    requires small { size_of model.now a.now ^ (2 ^ size_of model.now a.now) ≤ 65536 }
    ensures { result ≡ konst_value model.now k.now }
{
    let count = counted(model, a);
    ones(model, k, count, predicates(count), count)
}

/// The value of a constant whose type is small.
pub(crate) fn bare(sig: &Sig, model: &Model, k: &Konst) -> u64
    requires fits { IsTrue (fits sig.now model.now) }
    requires bare { IsBare sig.now model.now k.now }
    ensures { result ≡ konst_value model.now k.now }
{
    match k {
        Konst::Named(n) => named(model, *n),
        Konst::True => 1,
        Konst::Not => ones(model, k, 2, 2, 2),
        Konst::And => rows(k, 2, 4),
        Konst::Or => rows(k, 2, 4),
        Konst::Imp => rows(k, 2, 4),
        Konst::Eq(a) => equality(model, k, a),
        Konst::All(a) => quantifier(model, k, a),
        Konst::Ex(a) => quantifier(model, k, a),
        Konst::Eps(a) => choice(model, k, a),
        _ => 0,
    }
}
