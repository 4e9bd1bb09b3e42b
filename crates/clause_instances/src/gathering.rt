ghost use Rattle.std.specs.Prelude.{◌≡◌, IfOk, OnOk};
ghost use Rattle.std.specs.List.{list_any};
ghost use Rattle.fo_terms.specs.inner.Gathered.{added, all_added};
ghost use Rattle.tagged_terms.specs.Readings.{signs_of};
ghost use Rattle.tagged_lines.specs.Tags.{variable_of, term_variables, terms_variables, literal_variables};
ghost use Rattle.clause_instances.specs.inner.Variables.{is_variable, distinct_variables, TagAs, VariableAs};

use fo_terms::{Atom, FoTerm, Literal};
use hol_terms::{Ty, copy_ty, same_ty};
use std::alloc::Global;
use tagged_lines::TypedVariable;
use tagged_terms::Symbol;
use text_kit::{NoMemory, Rows};

fn is_noted(seen: &[TypedVariable], x: u64, ty: &Ty) -> bool
    ensures { result ≡ list_any (λ v. is_variable v (variable_of x ty.now)) seen.now }
{
    for v in seen {
        if v.var == x && same_ty(&v.ty, ty) {
            return true;
        }
    }
    false
}

/// Appends the typed variable where it isn't there yet.
fn note(seen: &mut Rows<TypedVariable>, x: u64, ty: &Ty) -> Result<(), NoMemory>
    ensures { OnOk result (seen.new ≡ added is_variable seen.old (variable_of x ty.now)) }
{
    if is_noted(seen.as_slice(), x, ty) {
        return Ok(());
    }
    seen.push(TypedVariable {
        var: x,
        ty: copy_ty(ty)?,
    })
}

/// The type whose tag the symbol is.
fn tag_type(symbols: &[Symbol], f: u64) -> Option<&Ty>
    ensures { TagAs (signs_of symbols.now f) result }
{
    match symbols.get(f as usize) {
        Some(Symbol::Tag(s)) => Some(s),
        Some(Symbol::Apply) => None,
        Some(Symbol::Constant(_, _)) => None,
        None => None,
    }
}

/// The variable that is the only term.
fn only_variable(terms: &[FoTerm]) -> Option<u64>
    ensures { VariableAs terms.now result }
{
    match terms {
        [FoTerm::Var(x)] => Some(*x),
        [FoTerm::Fun(_, _)] => None,
        [] => None,
        [_, _, ..] => None,
    }
}

#[cycle(gathering)]
fn gather(t: &FoTerm, symbols: &[Symbol], seen: &mut Rows<TypedVariable>) -> Result<(), NoMemory>
    ensures { OnOk result (seen.new ≡ all_added is_variable seen.old (term_variables (signs_of symbols.now) t.now)) }
{
    match t {
        FoTerm::Var(_) => Ok(()),
        FoTerm::Fun(f, args) => match tag_type(symbols, *f) {
            None => gather_all(args.as_slice(), symbols, seen),
            Some(s) => match only_variable(args.as_slice()) {
                None => gather_all(args.as_slice(), symbols, seen),
                Some(x) => note(seen, x, s),
            },
        },
    }
}

#[cycle(gathering)]
fn gather_all(
    terms: &[FoTerm],
    symbols: &[Symbol],
    seen: &mut Rows<TypedVariable>,
) -> Result<(), NoMemory>
    ensures { OnOk result (seen.new ≡ all_added is_variable seen.old (terms_variables (signs_of symbols.now) terms.now)) }
{
    for t in terms {
        gather(t, symbols, seen)?;
    }
    Ok(())
}

fn gather_literal(
    l: &Literal,
    symbols: &[Symbol],
    seen: &mut Rows<TypedVariable>,
) -> Result<(), NoMemory>
    ensures { OnOk result (seen.new ≡ all_added is_variable seen.old (literal_variables (signs_of symbols.now) l.now)) }
{
    match &l.atom {
        Atom::Holds(t) => {
            gather(t, symbols, seen)?;
            Ok(())
        }
        Atom::Eq(s, t) => {
            gather(s, symbols, seen)?;
            gather(t, symbols, seen)?;
            Ok(())
        }
    }
}

/// The variables of tagged literals, each with the type of the tag right above it, once each in the order of their
/// first occurrence.
///
/// A variable is sought by a walk over those that were found, so the time grows with the square of their number.
pub fn variables(
    alloc: Global,
    symbols: &[Symbol],
    literals: &[Literal],
) -> Result<Rows<TypedVariable>, NoMemory>
    ensures { IfOk result (λ vs. vs ≡ distinct_variables (signs_of symbols.now) literals.now) }
{
    let mut seen = Rows::begin(alloc);
    for l in literals {
        gather_literal(l, symbols, &mut seen)?;
    }
    Ok(seen)
}
