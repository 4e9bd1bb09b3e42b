ghost use Rattle.std.specs.Prelude.{◌≡◌, ◌∷◌, ◌++◌, OnOk, IfOk};
ghost use Rattle.lambda_lift.specs.Keys.{ty_key, key, kind_of, number_of, type_of};

use hol_terms::{Konst, Term, Ty};
use std::alloc::Global;
use text_kit::{NoMemory, Rows};

/// Appends the numbers by which a type is told from others.
pub fn put_ty_key(out: &mut Rows<u64>, t: &Ty) -> Result<(), NoMemory>
    ensures { OnOk result (out.new ≡ out.old ++ ty_key t.now) }
{
    match t {
        Ty::Base(a) => {
            out.push(0)?;
            out.push(*a as u64)
        }
        Ty::Arrow(a, b) => {
            out.push(1)?;
            put_ty_key(out, a.get())?;
            put_ty_key(out, b.get())
        }
    }
}

fn kind(k: &Konst) -> u64
    ensures { result ≡ kind_of k.now }
{
    match k {
        Konst::Named(_) => 0,
        Konst::Aux(_) => 1,
        Konst::True => 2,
        Konst::False => 3,
        Konst::Not => 4,
        Konst::And => 5,
        Konst::Or => 6,
        Konst::Imp => 7,
        Konst::Eq(_) => 8,
        Konst::All(_) => 9,
        Konst::Ex(_) => 10,
        Konst::Eps(_) => 11,
    }
}

fn number(k: &Konst) -> u64
    ensures { result ≡ number_of k.now }
{
    match k {
        Konst::Named(n) => *n as u64,
        Konst::Aux(n) => *n,
        _ => 0,
    }
}

fn put_konst_ty(out: &mut Rows<u64>, k: &Konst) -> Result<(), NoMemory>
    ensures { OnOk result (out.new ≡ out.old ++ ty_key (type_of k.now)) }
{
    match k {
        Konst::Eq(a) => put_ty_key(out, a),
        Konst::All(a) => put_ty_key(out, a),
        Konst::Ex(a) => put_ty_key(out, a),
        Konst::Eps(a) => put_ty_key(out, a),
        _ => put_ty_key(out, &Ty::Base(0)),
    }
}

/// Appends the numbers by which a constant is told from others: its kind, its number and its type.
pub fn put_konst_key(out: &mut Rows<u64>, k: &Konst) -> Result<(), NoMemory>
    ensures { OnOk result (out.new ≡ out.old ++ kind_of k.now ∷ number_of k.now ∷ ty_key (type_of k.now)) }
{
    out.push(kind(k))?;
    out.push(number(k))?;
    put_konst_ty(out, k)
}

fn put_key(out: &mut Rows<u64>, t: &Term) -> Result<(), NoMemory>
    ensures { OnOk result (out.new ≡ out.old ++ key t.now) }
{
    match t {
        Term::Bound(i) => {
            out.push(0)?;
            out.push(*i)
        }
        Term::Free(n, a) => {
            out.push(1)?;
            out.push(*n)?;
            put_ty_key(out, a)
        }
        Term::Con(k) => {
            out.push(2)?;
            put_konst_key(out, k)
        }
        Term::App(f, x) => {
            out.push(3)?;
            put_key(out, f.get())?;
            put_key(out, x.get())
        }
        Term::Lam(a, b) => {
            out.push(4)?;
            put_ty_key(out, a)?;
            put_key(out, b.get())
        }
    }
}

/// The list of numbers by which a term is looked up.
pub fn key_of(alloc: Global, t: &Term) -> Result<Vec<u64>, NoMemory>
    ensures { IfOk result (λ k. k.items ≡ key t.now) }
{
    let mut out = Rows::begin(alloc);
    put_key(&mut out, t)?;
    Ok(out.into_vec())
}

/// The list of numbers by which a type is looked up.
pub fn key_of_ty(alloc: Global, t: &Ty) -> Result<Vec<u64>, NoMemory>
    ensures { IfOk result (λ k. k.items ≡ ty_key t.now) }
{
    let mut out = Rows::begin(alloc);
    put_ty_key(&mut out, t)?;
    Ok(out.into_vec())
}
