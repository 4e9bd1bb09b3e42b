ghost use Rattle.std.specs.Prelude.{◌≡◌, ◌++◌, OnOk};
ghost use Rattle.mepo_filter.specs.Constants.{named, names};

use hol_terms::{Konst, Term};
use text_kit::NoMemory;

fn put_named(k: &Konst, out: &mut Vec<u32>) -> Result<(), NoMemory>
    ensures { OnOk result (out.new.items ≡ out.old.items ++ named k.now) }
{
    match k {
        Konst::Named(number) => match out.push(*number) {
            Ok(()) => Ok(()),
            Err(_) => Err(NoMemory),
        },
        _ => Ok(()),
    }
}

/// Appends the numbers of a term's named constants, in reading order.
pub(crate) fn put_names(t: &Term, out: &mut Vec<u32>) -> Result<(), NoMemory>
    ensures { OnOk result (out.new.items ≡ out.old.items ++ names t.now) }
{
    match t {
        Term::Bound(_) => Ok(()),
        Term::Free(_, _) => Ok(()),
        Term::Con(k) => put_named(k, out),
        Term::App(f, x) => {
            put_names(f.get(), &mut *out)?;
            put_names(x.get(), out)
        }
        Term::Lam(_, b) => put_names(b.get(), out),
    }
}
