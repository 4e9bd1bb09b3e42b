ghost use Rattle.std.specs.Prelude.{◌≡◌, ℕ, ◌^◌, ◌≤◌, IfSome};
ghost use Rattle.model_truth.specs.Sizes.{size as size_of};
ghost use Rattle.fin_model.specs.Fitting.{kept_size};

use hol_terms::Ty;
use model_truth::Model;

/// The greatest size of a type with which the calls reckon.
pub(crate) const GREATEST_SIZE: u64 = 65_536;

fn kept(n: u64) -> Option<u64>
    ensures { result ≡ kept_size n }
{
    if n <= GREATEST_SIZE { Some(n) } else { None }
}

/// The number of functions into a type of this size: the size of their domain is the exponent, above the limit where it
/// is `None`.
pub(crate) fn power(base: u64, exponent: u64) -> Option<u64>
    requires { base ≤ 65536 }
    ensures { result ≡ kept_size (base ^ exponent) }
{
    if base <= 1 {
        return if exponent == 0 { Some(1) } else { Some(base) };
    }
    let mut total = 1;
    for _i in 0..exponent {
        if total > GREATEST_SIZE {
            return None;
        }
        total *= base;
    }
    kept(total)
}

/// The number of functions from one type to another, from their sizes as far as these are kept.
fn functions(from: Option<u64>, to: Option<u64>) -> Option<u64>
    requires { IfSome to (λ b. b ≤ 65536) }
    ensures { (x y : ℕ) → from ≡ kept_size x → to ≡ kept_size y → result ≡ kept_size (y ^ x) }
{
    match (from, to) {
        (Some(a), Some(b)) => power(b, a),
        (None, Some(b)) => { if b <= 1 { Some(b) } else { None } }
        (Some(a), None) => { if a == 0 { Some(1) } else { None } }
        (None, None) => None,
    }
}

/// The number of values of a type, and `None` exactly where there are more than 65,536. It takes no memory.
///
/// The functions into a type of one value are one, however many arguments they may have. A base type that isn't the
/// model's counts as one with a single value.
pub fn size(model: &Model, ty: &Ty) -> Option<u64>
    ensures { result ≡ kept_size (size_of model.now ty.now) }
{
    match ty {
        Ty::Base(a) => match model.sizes.get(*a as usize) {
            Some(n) => kept(*n as u64),
            None => Some(1),
        },
        Ty::Arrow(from, to) => functions(size(model, from.get()), size(model, to.get())),
    }
}
