ghost use Rattle.std.specs.Prelude.{◌≡◌, ℕ, List, ◌∷◌, [], ◌++◌, map, OnOk, IfOk};
ghost use Rattle.lambda_lift.specs.Equations.{run};
ghost use Rattle.lambda_lift.specs.Redexes.{spine as spine_of, redexes as redexes_of, left_path as left_path_of, side_redexes};

use crate::equation::{applied, run_length};
use crate::table::Aux;
use hol_terms::Term;
use std::alloc::Global;
use text_kit::{NoMemory, Rows};

/// Takes the last step of a path back.
fn step_back(path: &mut Rows<u8>)
    ensures { (p : List ℕ) (d : ℕ) → path.old ≡ p ++ d ∷ [] → path.new ≡ p }
{
    let _ = path.pop();
}

/// Appends the paths of a spine's redexes, behind this path.
fn put_spine(
    alloc: Global,
    out: &mut Rows<Rows<u8>>,
    path: &mut Rows<u8>,
    t: &Term,
) -> Result<(), NoMemory>
    ensures paths { OnOk result (out.new ≡ out.old ++ map (λ p. path.old ++ p) (spine_of t.now)) }
    ensures back { OnOk result (path.new ≡ path.old) }
{
    match t {
        Term::App(f, _) => {
            path.push(0)?;
            put_spine(alloc, out, path, f.get())?;
            step_back(path);
            out.push(path.copy(alloc)?)
        }
        Term::Lam(_, _) => Ok(()),
        Term::Con(_) => Ok(()),
        Term::Free(_, _) => Ok(()),
        Term::Bound(_) => Ok(()),
    }
}

/// Appends the paths of the redexes, behind this path.
fn put_redexes(
    alloc: Global,
    out: &mut Rows<Rows<u8>>,
    path: &mut Rows<u8>,
    formula: &Term,
    body: &Term,
) -> Result<(), NoMemory>
    ensures paths { OnOk result (out.new ≡ out.old ++ map (λ p. path.old ++ p) (redexes_of formula.now body.now)) }
    ensures back { OnOk result (path.new ≡ path.old) }
{
    match (formula, body) {
        (Term::App(f, x), Term::App(g, y)) => {
            path.push(0)?;
            put_redexes(alloc, out, path, f.get(), g.get())?;
            step_back(path);
            path.push(1)?;
            put_redexes(alloc, out, path, x.get(), y.get())?;
            step_back(path);
            Ok(())
        }
        (Term::Lam(_, b), Term::Lam(_, d)) => {
            path.push(2)?;
            put_redexes(alloc, out, path, b.get(), d.get())?;
            step_back(path);
            Ok(())
        }
        (Term::Lam(_, _), Term::App(_, _)) => put_spine(alloc, out, path, body),
        _ => Ok(()),
    }
}

/// The paths of the redexes that the expanded lifted body of a formula has and the formula hasn't, in the order in which
/// they are contracted.
///
/// It takes time in proportion to the two terms and to the paths that it gives.
pub fn redexes(alloc: Global, formula: &Term, body: &Term) -> Result<Rows<Rows<u8>>, NoMemory>
    ensures { IfOk result (λ paths. paths ≡ redexes_of formula.now body.now) }
{
    let mut out = Rows::begin(alloc);
    let mut path = Rows::begin(alloc);
    put_redexes(alloc, &mut out, &mut path, formula, body)?;
    Ok(out)
}

/// Appends the path to the left side of the equation of a closed term, under a quantifier for each lambda that it begins with.
fn put_left_path(path: &mut Rows<u8>, t: &Term) -> Result<(), NoMemory>
    ensures { OnOk result (path.new ≡ path.old ++ left_path_of (run t.now)) }
{
    match t {
        Term::Lam(_, b) => {
            path.push(1)?;
            path.push(2)?;
            put_left_path(path, b.get())
        }
        _ => {
            path.push(0)?;
            path.push(1)
        }
    }
}

/// Appends the paths of the redexes that the equation of an auxiliary constant has on its left side, where the constant has become
/// its closed term.
pub fn put_side_redexes(
    alloc: Global,
    out: &mut Rows<Rows<u8>>,
    number: u64,
    entry: &Aux,
) -> Result<(), NoMemory>
    ensures { OnOk result (out.new ≡ out.old ++ side_redexes number entry.now) }
{
    let left = applied(alloc, number, run_length(&entry.closed)?)?;
    let mut path = Rows::begin(alloc);
    put_left_path(&mut path, &entry.closed)?;
    put_spine(alloc, out, &mut path, &left)
}
