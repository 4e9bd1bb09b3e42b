ghost use Rattle.std.specs.Prelude.{◌≡◌, [], map, IfOk, OnOk};
ghost use Rattle.std.specs.List.{concat};
ghost use Rattle.std.specs.Ordering.{nat_cmp};
ghost use Rattle.std.specs.BTreeSet.{insert_key};
ghost use Rattle.fo_terms.specs.Substitution.{var};
ghost use Rattle.fo_terms.specs.Normal.{variables_of};
ghost use Rattle.fol_cnf.specs.Scopes.{atom_variables, all_inserted, ascending, hidden};
ghost use Rattle.fol_cnf.specs.Walks.{occurring};
ghost use Rattle.fol_cnf.specs.inner.Chains.{chained};

use crate::scope::{Scope, put_in_atom};
use fo_terms::{Atom, FoFormula, FoTerm};
use std::alloc::Global;
use std::collections::BTreeSet;
use text_kit::{NoMemory, Rows};

fn note(found: &mut BTreeSet<u64>, x: u64) -> Result<(), NoMemory>
    ensures { OnOk result (found.new.keys ≡ insert_key nat_cmp found.old.keys x) }
{
    match found.insert(x) {
        Ok(_) => Ok(()),
        Err(_) => Err(NoMemory),
    }
}

/// Notes the variables of a term.
#[cycle(noting)]
fn note_term(found: &mut BTreeSet<u64>, t: &FoTerm) -> Result<(), NoMemory>
    ensures { OnOk result (found.new.keys ≡ all_inserted found.old.keys (variables_of t.now)) }
{
    match t {
        FoTerm::Var(x) => note(found, *x),
        FoTerm::Fun(_, args) => note_terms(found, args.as_slice()),
    }
}

#[cycle(noting)]
fn note_terms(found: &mut BTreeSet<u64>, terms: &[FoTerm]) -> Result<(), NoMemory>
    ensures { OnOk result (found.new.keys ≡ all_inserted found.old.keys (concat (map variables_of terms.now))) }
{
    for t in terms {
        note_term(found, t)?;
    }
    Ok(())
}

fn note_atom(found: &mut BTreeSet<u64>, atom: &Atom) -> Result<(), NoMemory>
    ensures { OnOk result (found.new.keys ≡ all_inserted found.old.keys (atom_variables atom.now)) }
{
    match atom {
        Atom::Holds(t) => note_term(found, t),
        Atom::Eq(s, t) => {
            note_term(found, s)?;
            note_term(found, t)
        }
    }
}

/// Notes the variables that occur in the formula with the scope's terms in it.
fn note_formula(
    alloc: Global,
    found: &mut BTreeSet<u64>,
    f: &FoFormula,
    scope: &Scope,
) -> Result<(), NoMemory>
    ensures { OnOk result (found.new.keys ≡ all_inserted found.old.keys (occurring f.now (chained scope.now))) }
{
    match f {
        FoFormula::True => Ok(()),
        FoFormula::False => Ok(()),
        FoFormula::Atom(a) => {
            let atom = put_in_atom(alloc, a, &*scope)?;
            note_atom(found, &atom)
        }
        FoFormula::Not(a) => note_formula(alloc, found, a.get(), &*scope),
        FoFormula::And(a, b) => {
            note_formula(alloc, found, a.get(), &*scope)?;
            note_formula(alloc, found, b.get(), &*scope)
        }
        FoFormula::Or(a, b) => {
            note_formula(alloc, found, a.get(), &*scope)?;
            note_formula(alloc, found, b.get(), &*scope)
        }
        FoFormula::Imp(a, b) => {
            note_formula(alloc, found, a.get(), &*scope)?;
            note_formula(alloc, found, b.get(), &*scope)
        }
        FoFormula::Iff(a, b) => {
            note_formula(alloc, found, a.get(), &*scope)?;
            note_formula(alloc, found, b.get(), &*scope)
        }
        FoFormula::Each(x, b) => {
            let nothing = FoTerm::Fun(0, Rows::begin(alloc));
            let under = Scope::Under(*x, &nothing, &*scope);
            note_formula(alloc, found, b.get(), &under)
        }
        FoFormula::One(x, b) => {
            let nothing = FoTerm::Fun(0, Rows::begin(alloc));
            let under = Scope::Under(*x, &nothing, &*scope);
            note_formula(alloc, found, b.get(), &under)
        }
    }
}

/// The set's numbers in order, as variables.
fn listed(alloc: Global, found: BTreeSet<u64>) -> Result<Rows<FoTerm>, NoMemory>
    ensures { IfOk result (λ xs. xs ≡ map var found.keys) }
{
    let mut rest = found;
    let mut out = Rows::begin(alloc);
    'numbers: while let Some(x) = rest.pop_first() {
        out.push(FoTerm::Var(x))?;
    }
    Ok(out)
}

/// The variables that occur in a quantified formula, ascending: those of its body but for the bound one.
pub fn occurring_under(
    alloc: Global,
    x: u64,
    body: &FoFormula,
    scope: &Scope,
) -> Result<Rows<FoTerm>, NoMemory>
    ensures { IfOk result (λ xs. xs ≡ map var (ascending (occurring body.now (hidden (chained scope.now) x)))) }
{
    let nothing = FoTerm::Fun(0, Rows::begin(alloc));
    let under = Scope::Under(x, &nothing, &*scope);
    let mut found = BTreeSet::new(alloc);
    note_formula(alloc, &mut found, body, &under)?;
    listed(alloc, found)
}
