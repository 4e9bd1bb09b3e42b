ghost use Rattle.std.specs.Prelude.{◌≡◌, IfOk, OnOk};
ghost use Rattle.std.specs.Ordering.{nat_cmp};
ghost use Rattle.std.specs.BTreeMap.{insert_entry};
ghost use Rattle.formula_clauses.specs.Choices.{variables_with, variables as variables_of};

use hol_terms::{Term, Ty, copy_ty};
use std::alloc::Global;
use std::collections::BTreeMap;
use text_kit::{NoMemory, Rows};

/// A variable of a clause: its number and its type.
pub type Variable = (u64, Ty);

fn note(found: &mut BTreeMap<u64, Ty>, n: u64, ty: Ty) -> Result<(), NoMemory>
    ensures { OnOk result (found.new.entries ≡ insert_entry nat_cmp found.old.entries n ty) }
{
    match found.insert(n, ty) {
        Ok(_) => Ok(()),
        Err(_) => Err(NoMemory),
    }
}

fn collect(found: &mut BTreeMap<u64, Ty>, t: &Term) -> Result<(), NoMemory>
    ensures { OnOk result (found.new.entries ≡ variables_with t.now found.old.entries) }
{
    match t {
        Term::Bound(_) => Ok(()),
        Term::Free(n, a) => note(found, *n, copy_ty(a)?),
        Term::Con(_) => Ok(()),
        Term::App(f, x) => {
            collect(found, f.get())?;
            collect(found, x.get())
        }
        Term::Lam(_, b) => collect(found, b.get()),
    }
}

/// The map's entries in order.
fn listed(alloc: Global, found: BTreeMap<u64, Ty>) -> Result<Rows<Variable>, NoMemory>
    ensures { IfOk result (λ vs. vs ≡ found.entries) }
{
    let mut rest = found;
    let mut out = Rows::begin(alloc);
    'entries: while let Some(v) = rest.pop_first() {
        out.push(v)?;
    }
    Ok(out)
}

/// The variables that occur in a term, ascending by number.
pub fn variables_in(alloc: Global, t: &Term) -> Result<Rows<Variable>, NoMemory>
    ensures { IfOk result (λ vs. vs ≡ variables_of t.now) }
{
    let mut found = BTreeMap::new(alloc);
    collect(&mut found, t)?;
    listed(alloc, found)
}
