ghost use Rattle.std.specs.Prelude.{◌≡◌, IfOk};
ghost use Rattle.hol_terms.specs.declared.term.Term.TheOpen.{Term-F};
ghost use Rattle.hol_formulas.specs.Formulas.{atom as atom_of, konst_formula as formula_of_konst, konst_head as head_of_konst, quantified as quantified_as, app_formula as formula_of_app, app_head as head_of_app, app_reading, lam_reading, simple as simply_read, read_step, reading as reading_of, formula_of};

use crate::formula::{Formula, Junction, Quantifier};
use hol_terms::{Konst, Term, Ty, copy, copy_konst, copy_ty, same_ty};
use std::alloc::Global;
use text_kit::{NoMemory, Shared};

/// What a term is where it is a function, or what a quantifier stands on.
#[derive(Debug, Drop)]
pub enum Head {
    Plain,
    Negation,
    Junction(Junction),
    /// a connective with its left formula
    Half(Junction, Shared<Formula>),
    /// a quantifier over a variable of this type
    Quantifier(Quantifier, Ty),
    /// a lambda: the type of its variable, and its body, as a term and as a formula
    Abstraction(Ty, Shared<Term>, Shared<Formula>),
}

/// A term, what it is as a formula, and what it is as a function.
#[derive(Debug, Drop)]
pub struct Reading {
    pub own: Shared<Term>,
    pub formula: Shared<Formula>,
    pub head: Head,
}

fn atom(alloc: Global, t: &Term) -> Result<Shared<Formula>, NoMemory>
    ensures { IfOk result (λ f. f ≡ atom_of t.now) }
{
    Shared::new(alloc, Formula::Atom(copy(t)?))
}

fn simple(alloc: Global, t: &Term) -> Result<Shared<Reading>, NoMemory>
    ensures { IfOk result (λ r. r ≡ simply_read t.now) }
{
    put_together(alloc, copy(t)?, atom(alloc, t)?, Head::Plain)
}

/// The reading of these parts.
fn put_together(
    alloc: Global,
    own: Term,
    formula: Shared<Formula>,
    head: Head,
) -> Result<Shared<Reading>, NoMemory>
    ensures { IfOk result (λ r. r ≡ record { own = own; formula = formula; head = head }) }
{
    let own = Shared::new(alloc, own)?;
    Shared::new(alloc, Reading { own, formula, head })
}

fn konst_head(k: &Konst) -> Result<Head, NoMemory>
    ensures { IfOk result (λ h. h ≡ head_of_konst k.now) }
{
    match k {
        Konst::Not => Ok(Head::Negation),
        Konst::And => Ok(Head::Junction(Junction::And)),
        Konst::Or => Ok(Head::Junction(Junction::Or)),
        Konst::Imp => Ok(Head::Junction(Junction::Imp)),
        Konst::Eq(a) => {
            if same_ty(a, &Ty::Base(0)) {
                Ok(Head::Junction(Junction::Iff))
            } else {
                Ok(Head::Plain)
            }
        }
        Konst::All(a) => Ok(Head::Quantifier(Quantifier::All, copy_ty(a)?)),
        Konst::Ex(a) => Ok(Head::Quantifier(Quantifier::Ex, copy_ty(a)?)),
        Konst::Eps(_) => Ok(Head::Plain),
        Konst::Named(_) => Ok(Head::Plain),
        Konst::Aux(_) => Ok(Head::Plain),
        Konst::True => Ok(Head::Plain),
        Konst::False => Ok(Head::Plain),
    }
}

fn konst_formula(k: &Konst) -> Result<Formula, NoMemory>
    ensures { IfOk result (λ f. f ≡ formula_of_konst k.now) }
{
    match k {
        Konst::True => Ok(Formula::True),
        Konst::False => Ok(Formula::False),
        _ => Ok(Formula::Atom(Term::Con(copy_konst(k)?))),
    }
}

fn konst_reading(alloc: Global, k: &Konst) -> Result<Shared<Reading>, NoMemory>
    ensures { IfOk result (λ r. r ≡ read_step (Term-F.Con k.now)) }
{
    let formula = Shared::new(alloc, konst_formula(k)?)?;
    put_together(alloc, Term::Con(copy_konst(k)?), formula, konst_head(k)?)
}

/// A quantifier on a term, `own` being the quantifier applied to it.
fn quantified(
    alloc: Global,
    q: Quantifier,
    a: &Ty,
    head: &Head,
    own: &Term,
) -> Result<Shared<Formula>, NoMemory>
    ensures { IfOk result (λ f. f ≡ quantified_as q a.now head.now own.now) }
{
    match head {
        Head::Abstraction(b, t, f) => {
            if same_ty(a, b) {
                Shared::new(
                    alloc,
                    Formula::Quantified(q, copy_ty(a)?, t.again()?, f.again()?),
                )
            } else {
                atom(alloc, own)
            }
        }
        Head::Plain => atom(alloc, own),
        Head::Negation => atom(alloc, own),
        Head::Junction(_) => atom(alloc, own),
        Head::Half(_, _) => atom(alloc, own),
        Head::Quantifier(_, _) => atom(alloc, own),
    }
}

/// A function applied to a term, as a formula, `own` being the application.
fn app_formula(
    alloc: Global,
    head: &Head,
    x: &Reading,
    own: &Term,
) -> Result<Shared<Formula>, NoMemory>
    ensures { IfOk result (λ f. f ≡ formula_of_app head.now x.now own.now) }
{
    match head {
        Head::Negation => Shared::new(alloc, Formula::Not(x.formula.again()?)),
        Head::Half(j, left) => {
            Shared::new(alloc, Formula::Two(*j, left.again()?, x.formula.again()?))
        }
        Head::Quantifier(q, a) => quantified(alloc, *q, a, &x.head, own),
        Head::Plain => atom(alloc, own),
        Head::Junction(_) => atom(alloc, own),
        Head::Abstraction(_, _, _) => atom(alloc, own),
    }
}

/// A function applied to a term, as a function.
fn app_head(head: &Head, x: &Reading) -> Result<Head, NoMemory>
    ensures { IfOk result (λ h. h ≡ head_of_app head.now x.now) }
{
    match head {
        Head::Junction(j) => Ok(Head::Half(*j, x.formula.again()?)),
        Head::Plain => Ok(Head::Plain),
        Head::Negation => Ok(Head::Plain),
        Head::Half(_, _) => Ok(Head::Plain),
        Head::Quantifier(_, _) => Ok(Head::Plain),
        Head::Abstraction(_, _, _) => Ok(Head::Plain),
    }
}

fn applied(alloc: Global, f: &Reading, x: &Reading) -> Result<Shared<Reading>, NoMemory>
    ensures { IfOk result (λ r. r ≡ app_reading f.now x.now) }
{
    let own = Term::App(f.own.again()?, x.own.again()?);
    let formula = app_formula(alloc, &f.head, x, &own)?;
    put_together(alloc, own, formula, app_head(&f.head, x)?)
}

fn under_lambda(alloc: Global, a: &Ty, b: &Reading) -> Result<Shared<Reading>, NoMemory>
    ensures { IfOk result (λ r. r ≡ lam_reading a.now b.now) }
{
    let own = Term::Lam(copy_ty(a)?, b.own.again()?);
    let formula = atom(alloc, &own)?;
    let head = Head::Abstraction(copy_ty(a)?, b.own.again()?, b.formula.again()?);
    put_together(alloc, own, formula, head)
}

/// What a term is as a formula and as a function.
fn read_as_part(alloc: Global, t: &Term) -> Result<Shared<Reading>, NoMemory>
    ensures { IfOk result (λ r. r ≡ reading_of t.now) }
{
    match t {
        Term::Bound(_) => simple(alloc, t),
        Term::Free(_, _) => simple(alloc, t),
        Term::Con(k) => konst_reading(alloc, k),
        Term::App(f, x) => {
            let left = read_as_part(alloc, f.get())?;
            let right = read_as_part(alloc, x.get())?;
            applied(alloc, left.get(), right.get())
        }
        Term::Lam(a, b) => {
            let inner = read_as_part(alloc, b.get())?;
            under_lambda(alloc, a, inner.get())
        }
    }
}

/// The term as a formula.
///
/// Its parts are shared with the term, not copied, so it takes time and room in proportion to the term.
pub fn read(alloc: Global, t: &Term) -> Result<Shared<Formula>, NoMemory>
    ensures { IfOk result (λ f. f ≡ formula_of t.now) }
{
    read_as_part(alloc, t)?.get().formula.again()
}
