ghost use Rattle.std.specs.Prelude.{◌≡◌, ◌+◌, max, IfOk};
ghost use Rattle.clause_instances.specs.inner.Passes.{above_term, above_all};

use hol_clauses::Binding;
use hol_terms::Term;
use text_kit::NoMemory;

/// The least number above the term's free variables and the given one.
fn above(t: &Term, floor: u64) -> Result<u64, NoMemory>
    ensures { IfOk result (λ n. n ≡ max floor (above_term t.now)) }
{
    match t {
        Term::Bound(_) => Ok(floor),
        Term::Free(x, _) => past(*x, floor),
        Term::Con(_) => Ok(floor),
        Term::App(f, x) => {
            let n = above(f.get(), floor)?;
            above(x.get(), n)
        }
        Term::Lam(_, b) => above(b.get(), floor),
    }
}

/// The number above `x`, or the given one where that is greater.
fn past(x: u64, floor: u64) -> Result<u64, NoMemory>
    ensures { IfOk result (λ n. n ≡ max floor (x + 1)) }
{
    match x.checked_add(1) {
        None => Err(NoMemory),
        Some(next) => Ok(floor.max(next)),
    }
}

/// The least number above the bindings' variables and the free variables of their terms.
pub fn above_bindings(bindings: &[Binding]) -> Result<u64, NoMemory>
    ensures { IfOk result (λ n. n ≡ above_all bindings.now) }
{
    let mut n = 0;
    for b in bindings {
        let least = past(b.number, n)?;
        n = above(&b.term, least)?;
    }
    Ok(n)
}
