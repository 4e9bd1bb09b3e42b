ghost use Rattle.std.specs.Prelude.{◌≡◌, ◌==◌, slice_get};
ghost use Rattle.std.specs.List.{list_all};
ghost use Rattle.hol_terms.specs.Types.{ty_fits};
ghost use Rattle.model_truth.specs.Sizes.{or_else};
ghost use Rattle.fin_model.specs.Fitting.{is_size, is_value, are_values, fits};

use crate::sizes::{GREATEST_SIZE, size};
use hol_terms::{Sig, Ty, fits as names_known_types};
use model_truth::Model;
use text_kit::Rows;

fn are_sizes(sizes: &[u32]) -> bool
    ensures { result ≡ list_all is_size sizes.now }
{
    for n in sizes {
        if *n < 1 || *n as u64 > GREATEST_SIZE {
            return false;
        }
    }
    true
}

fn name_known_types(types: u32, tys: &[Ty]) -> bool
    ensures { result ≡ list_all (ty_fits types) tys.now }
{
    for ty in tys {
        if !names_known_types(types, ty) {
            return false;
        }
    }
    true
}

fn is_value_of(model: &Model, ty: &Ty, n: u64) -> bool
    ensures { result ≡ is_value model.now ty.now n }
{
    match size(model, ty) {
        Some(count) => n < count && n < GREATEST_SIZE,
        None => n < GREATEST_SIZE,
    }
}

fn are_values_of(model: &Model, tys: &[Ty], values: &[u64]) -> bool
    ensures { result ≡ are_values model.now tys.now values.now }
{
    if tys.len() != values.len() {
        return false;
    }
    for i in 0..tys.len() {
        if !is_value_of(model, &tys[i], values[i]) {
            return false;
        }
    }
    true
}

fn has_two_truth_values(sizes: &Rows<u32>) -> bool
    ensures { result ≡ (or_else 0 (slice_get sizes.now 0) == 2) }
{
    match sizes.get(0) {
        Some(n) => *n == 2,
        None => false,
    }
}

/// Whether the model is one of the signature that the calls of this crate take: it has two truth values, for each base
/// type a size from 1 to 65,536, and for each named constant a value of its type below 65,536, and the signature names
/// no other base types. It takes no memory.
pub fn fits_model(sig: &Sig, model: &Model) -> bool
    ensures { result ≡ fits sig.now model.now }
{
    let types = model.sizes.len();
    if types != sig.types as usize {
        return false;
    }
    has_two_truth_values(&model.sizes)
        && are_sizes(model.sizes.as_slice())
        && name_known_types(sig.types, sig.consts.as_slice())
        && name_known_types(sig.types, sig.aux.as_slice())
        && are_values_of(model, sig.consts.as_slice(), model.consts.as_slice())
}
