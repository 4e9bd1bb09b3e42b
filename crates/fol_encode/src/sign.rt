ghost use Rattle.std.specs.Prelude.{◌≡◌, ◌++◌, OnOk, IfOk};
ghost use Rattle.hol_terms.specs.declared.term.Term.{roll-Term};
ghost use Rattle.hol_terms.specs.declared.term.Term.TheOpen.{Term-F};
ghost use Rattle.lambda_lift.specs.Tables.{expand as expand_in};
ghost use Rattle.fol_encode.specs.declared.sign.Sign.TheVariants as sign;
ghost use Rattle.fol_encode.specs.Signs.{class_of, konst_key, sign_key, symbol_of as symbol_for};

use hol_terms::{Konst, Term, Ty, copy_konst, copy_ty};
use lambda_lift::{Table, expand, put_konst_key, put_ty_key};
use std::alloc::Global;
use tagged_terms::Symbol;
use text_kit::{NoMemory, Rows};

/// A symbol of encoded formulas.
#[derive(Debug, Drop)]
pub enum Sign {
    /// the tag of a type, which has one argument
    Tag(Ty),
    /// application, which has two
    Apply,
    /// a constant and its type; it has no arguments
    Constant(Konst, Ty),
}

/// The same sign once more, in constant time and without room of its own.
pub fn copy_sign(s: &Sign) -> Result<Sign, NoMemory>
    ensures { IfOk result (λ t. t ≡ s.now) }
{
    match s {
        Sign::Tag(a) => Ok(Sign::Tag(copy_ty(a)?)),
        Sign::Apply => Ok(Sign::Apply),
        Sign::Constant(k, a) => Ok(Sign::Constant(copy_konst(k)?, copy_ty(a)?)),
    }
}

/// Where a constant's kind stands among the others.
fn class(k: &Konst) -> u64
    ensures { result ≡ class_of k.now }
{
    match k {
        Konst::Named(_) => 3,
        Konst::Aux(_) => 4,
        Konst::True => 2,
        Konst::False => 2,
        Konst::Not => 2,
        Konst::And => 2,
        Konst::Or => 2,
        Konst::Imp => 2,
        Konst::Eq(_) => 2,
        Konst::All(_) => 2,
        Konst::Ex(_) => 2,
        Konst::Eps(_) => 2,
    }
}

/// The list of numbers by which a constant's sign is looked up and has its place among others.
pub fn key_of_konst(alloc: Global, k: &Konst) -> Result<Vec<u64>, NoMemory>
    ensures { IfOk result (λ v. v.items ≡ konst_key k.now) }
{
    let mut out = Rows::begin(alloc);
    out.push(class(k))?;
    put_konst_key(&mut out, k)?;
    Ok(out.into_vec())
}

/// The list of numbers by which a tag is looked up and has its place among others.
pub fn key_of_tag(alloc: Global, a: &Ty) -> Result<Vec<u64>, NoMemory>
    ensures { IfOk result (λ v. v.items ≡ sign_key (sign.Tag a.now)) }
{
    let mut out = Rows::begin(alloc);
    out.push(0)?;
    put_ty_key(&mut out, a)?;
    Ok(out.into_vec())
}

/// The list of numbers by which the sign of application is looked up and has its place among others.
pub fn key_of_apply(alloc: Global) -> Result<Vec<u64>, NoMemory>
    ensures { IfOk result (λ v. v.items ≡ sign_key sign.Apply) }
{
    let mut out = Rows::begin(alloc);
    out.push(1)?;
    Ok(out.into_vec())
}

/// The list of numbers by which a sign is looked up and has its place among others.
pub fn key_of_sign(alloc: Global, s: &Sign) -> Result<Vec<u64>, NoMemory>
    ensures { IfOk result (λ v. v.items ≡ sign_key s.now) }
{
    match s {
        Sign::Tag(a) => key_of_tag(alloc, a),
        Sign::Apply => key_of_apply(alloc),
        Sign::Constant(k, _) => key_of_konst(alloc, k),
    }
}

/// The term that a constant stands for: of an auxiliary one its closed term.
fn meant(alloc: Global, table: &Table, k: &Konst) -> Result<Term, NoMemory>
    ensures { IfOk result (λ t. t ≡ expand_in table.now (roll-Term (Term-F.Con k.now))) }
{
    let t = Term::Con(copy_konst(k)?);
    expand(alloc, table, &t)
}

/// What a sign stands for.
pub fn symbol_of(alloc: Global, table: &Table, s: &Sign) -> Result<Symbol, NoMemory>
    ensures { IfOk result (λ d. d ≡ symbol_for table.now s.now) }
{
    match s {
        Sign::Tag(a) => Ok(Symbol::Tag(copy_ty(a)?)),
        Sign::Apply => Ok(Symbol::Apply),
        Sign::Constant(k, a) => {
            let term = meant(alloc, table, k)?;
            Ok(Symbol::Constant(term, copy_ty(a)?))
        }
    }
}
