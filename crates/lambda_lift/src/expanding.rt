ghost use Rattle.std.specs.Prelude.{◌≡◌, IfOk};
ghost use Rattle.lambda_lift.specs.Tables.{expand as expanded, expanded_konst};

use crate::table::Table;
use hol_terms::{Konst, Term, copy, copy_konst, copy_ty};
use std::alloc::Global;
use text_kit::{NoMemory, Shared};

fn expand_konst(table: &Table, k: &Konst) -> Result<Term, NoMemory>
    ensures { IfOk result (λ r. r ≡ expanded_konst table.now k.now) }
{
    match k {
        Konst::Aux(n) => match table.entries().get(*n as usize) {
            Some(entry) => copy(&entry.closed),
            None => Ok(Term::Con(Konst::Aux(*n))),
        },
        _ => Ok(Term::Con(copy_konst(k)?)),
    }
}

/// The term with each auxiliary constant of the table replaced by its closed term.
///
/// Closed terms are shared, not copied, so it takes time and room in proportion to the term.
pub fn expand(alloc: Global, table: &Table, t: &Term) -> Result<Term, NoMemory>
    ensures { IfOk result (λ r. r ≡ expanded table.now t.now) }
{
    match t {
        Term::Bound(i) => Ok(Term::Bound(*i)),
        Term::Free(n, a) => Ok(Term::Free(*n, copy_ty(a)?)),
        Term::Con(k) => expand_konst(table, k),
        Term::App(f, x) => {
            let head = Shared::new(alloc, expand(alloc, table, f.get())?)?;
            let arg = Shared::new(alloc, expand(alloc, table, x.get())?)?;
            Ok(Term::App(head, arg))
        }
        Term::Lam(a, b) => {
            let body = Shared::new(alloc, expand(alloc, table, b.get())?)?;
            Ok(Term::Lam(copy_ty(a)?, body))
        }
    }
}
