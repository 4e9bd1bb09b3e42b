ghost use Rattle.std.specs.Prelude.{◌≡◌, ◌++◌, map, IfOk, OnOk};
ghost use Rattle.fo_infer.specs.Paths.{at_path, at_atom_path};
ghost use Rattle.std.specs.Option.{option_copied};
ghost use Rattle.tagged_lines.specs.Places.{term_path, formula_path as path_in_formula};
ghost use Rattle.hol_lift.specs.inner.Places.{direction, side_path};

use fo_terms::{Atom, FoTerm};
use std::alloc::Global;
use text_kit::{NoMemory, Rows};

/// The subterm at a path, where there is one.
fn subterm<'a>(t: &'a FoTerm, path: &[u64]) -> Option<&'a FoTerm>
    ensures { option_copied result ≡ at_path path.now t.now }
{
    match path {
        [] => Some(t),
        [place, rest @ ..] => match t {
            FoTerm::Var(_) => None,
            FoTerm::Fun(_, args) => match args.get(*place as usize) {
                None => None,
                Some(u) => subterm(u, rest),
            },
        },
    }
}

/// The subterm of an atom at a path, whose first number is the side.
pub fn atom_subterm<'a>(a: &'a Atom, path: &[u64]) -> Option<&'a FoTerm>
    ensures { option_copied result ≡ at_atom_path path.now a.now }
{
    match path {
        [] => None,
        [side, rest @ ..] => match a {
            Atom::Holds(t) => { if *side == 0 { subterm(t, rest) } else { None } }
            Atom::Eq(s, t) => {
                if *side == 0 {
                    subterm(s, rest)
                } else if *side == 1 {
                    subterm(t, rest)
                } else {
                    None
                }
            }
        },
    }
}

/// To the function of an application, or to its argument.
fn towards(place: u64) -> u8
    ensures { result ≡ direction place }
{
    if place == 0 { 0 } else { 1 }
}

/// Appends the path in what a tagged term stands for: its places without those of tags.
fn push_term_path(path: &[u64], out: &mut Rows<u8>) -> Result<(), NoMemory>
    ensures { OnOk result (out.new ≡ out.old ++ map direction (term_path path.now)) }
{
    match path {
        [] => Ok(()),
        [_] => Ok(()),
        [_, place, rest @ ..] => {
            out.push(towards(*place))?;
            push_term_path(rest, out)
        }
    }
}

/// Appends the path to a side of what an atom stands for.
fn push_side(a: &Atom, side: u64, out: &mut Rows<u8>) -> Result<(), NoMemory>
    ensures { OnOk result (out.new ≡ out.old ++ side_path a.now side) }
{
    match a {
        Atom::Holds(_) => Ok(()),
        Atom::Eq(_, _) => {
            if side == 0 {
                out.push(0)?;
            }
            out.push(1)
        }
    }
}

/// The path in what a tagged atom stands for.
pub fn formula_path(alloc: Global, a: &Atom, path: &[u64]) -> Result<Rows<u8>, NoMemory>
    ensures { IfOk result (λ p. p ≡ map direction (path_in_formula a.now path.now)) }
{
    let mut out = Rows::begin(alloc);
    match path {
        [] => Ok(out),
        [side, rest @ ..] => {
            push_side(a, *side, &mut out)?;
            push_term_path(rest, &mut out)?;
            Ok(out)
        }
    }
}
