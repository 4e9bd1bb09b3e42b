use fo_terms::{Atom, FoFormula, FoTerm};
use fol_encode::{Signs, decode_term, encode_atom, encode_formula, signs_of};
use hol_terms::{Konst, Sig, Term, Ty, arrow, same};
use lambda_lift::{Table, expand};
use std::alloc::Global;
use std::test::Fail;
use text_kit::{NoMemory, Rows, Shared};

fn apply(alloc: Global, f: Term, x: Term) -> Result<Term, NoMemory> {
    let arg = Shared::new(alloc, x)?;
    Ok(Term::App(Shared::new(alloc, f)?, arg))
}

/// `zero : nat` and `p : nat -> bool`
fn signature(alloc: Global) -> Result<Sig, NoMemory> {
    let mut consts = Rows::begin(alloc);
    consts.push(Ty::Base(1))?;
    consts.push(arrow(alloc, Ty::Base(1), Ty::Base(0))?)?;
    Ok(Sig {
        types: 2,
        consts,
        aux: Rows::begin(alloc),
    })
}

/// A table whose first constant stands for `zero`.
fn table(alloc: Global) -> Result<Table, NoMemory> {
    let mut table = Table::begin(alloc);
    table.put(&Ty::Base(1), &Term::Con(Konst::Named(0)))?;
    Ok(table)
}

/// `p a0`
#[tactic(none)]
fn atom(alloc: Global) -> Result<Term, NoMemory> {
    apply(alloc, Term::Con(Konst::Named(1)), Term::Con(Konst::Aux(0)))
}

/// `p x`, of variable 7
#[tactic(none)]
fn open_atom(alloc: Global) -> Result<Term, NoMemory> {
    apply(
        alloc,
        Term::Con(Konst::Named(1)),
        Term::Free(7, Ty::Base(1)),
    )
}

/// `!x:nat. p x`
#[tactic(none)]
fn every(alloc: Global) -> Result<Term, NoMemory> {
    let body = apply(alloc, Term::Con(Konst::Named(1)), Term::Bound(0))?;
    let property = Term::Lam(Ty::Base(1), Shared::new(alloc, body)?);
    apply(alloc, Term::Con(Konst::All(Ty::Base(1))), property)
}

/// The tags of bool, nat and nat -> bool have numbers 0 to 2, application 3, `p` 4 and the auxiliary constant 5.
#[tactic(none)]
fn signs(alloc: Global, table: &Table) -> Result<Signs, NoMemory> {
    let sig = signature(alloc)?;
    let mut terms = Rows::begin(alloc);
    terms.push(atom(alloc)?)?;
    terms.push(open_atom(alloc)?)?;
    signs_of(alloc, &sig, table, &terms)
}

fn constant(alloc: Global, f: u64) -> FoTerm {
    FoTerm::Fun(f, Rows::begin(alloc))
}

fn unary(alloc: Global, f: u64, t: FoTerm) -> Result<FoTerm, NoMemory> {
    let mut args = Rows::begin(alloc);
    args.push(t)?;
    Ok(FoTerm::Fun(f, args))
}

/// The tagged application of `p` to a core of nat.
#[tactic(none)]
fn applied(alloc: Global, core: FoTerm) -> Result<FoTerm, NoMemory> {
    let mut args = Rows::begin(alloc);
    args.push(unary(alloc, 2, constant(alloc, 4))?)?;
    args.push(unary(alloc, 1, core)?)?;
    unary(alloc, 0, FoTerm::Fun(3, args))
}

/// Whether the atom holds of the tagged application of `p` to this core of nat.
#[tactic(none)]
fn holds_of(alloc: Global, atom: &Atom, core: FoTerm) -> Result<bool, NoMemory> {
    let wanted = applied(alloc, core)?;
    match atom {
        Atom::Holds(t) => Ok(t.same(&wanted)),
        Atom::Eq(_, _) => Ok(false),
    }
}

/// Whether the atom is read as this term expanded.
#[tactic(none)]
fn reads(
    alloc: Global,
    signs: &Signs,
    table: &Table,
    a: &Atom,
    t: &Term,
) -> Result<bool, NoMemory> {
    let wanted = expand(alloc, table, t)?;
    match a {
        Atom::Holds(u) => Ok(same(&decode_term(alloc, signs, u)?, &wanted)),
        Atom::Eq(_, _) => Ok(false),
    }
}

#[tactic(none)]
fn closed_atom_is_encoded(alloc: Global) -> Result<bool, NoMemory> {
    let table = table(alloc)?;
    let signs = signs(alloc, &table)?;
    let t = atom(alloc)?;
    let a = encode_atom(alloc, &signs, &t)?;
    Ok(holds_of(alloc, &a, constant(alloc, 5))? && reads(alloc, &signs, &table, &a, &t)?)
}

#[tactic(none)]
fn open_atom_is_encoded(alloc: Global) -> Result<bool, NoMemory> {
    let table = table(alloc)?;
    let signs = signs(alloc, &table)?;
    let t = open_atom(alloc)?;
    let a = encode_atom(alloc, &signs, &t)?;
    Ok(holds_of(alloc, &a, FoTerm::Var(7))? && reads(alloc, &signs, &table, &a, &t)?)
}

/// Whether the formula is the quantifier of variable 0 on the atom of this variable.
#[tactic(none)]
fn is_every(alloc: Global, f: &FoFormula) -> Result<bool, NoMemory> {
    match f {
        FoFormula::Each(n, body) => match body.get() {
            FoFormula::Atom(a) => Ok(*n == 0 && holds_of(alloc, a, FoTerm::Var(0))?),
            _ => Ok(false),
        },
        _ => Ok(false),
    }
}

#[tactic(none)]
fn formula_is_encoded(alloc: Global) -> Result<bool, NoMemory> {
    let table = table(alloc)?;
    let signs = signs(alloc, &table)?;
    let f = encode_formula(alloc, &signs, &every(alloc)?)?;
    is_every(alloc, &f)
}

#[test]
fn terms_are_encoded(rt: HostRuntime) -> Result<(), Fail> {
    let closed = closed_atom_is_encoded(rt.alloc())?;
    let open = open_atom_is_encoded(rt.alloc())?;
    let formula = formula_is_encoded(rt.alloc())?;
    assert!(rt; closed && open && formula);
    Ok(())
}
