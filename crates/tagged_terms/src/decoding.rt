ghost use Rattle.std.specs.Prelude.{◌≡◌, IfOk, map};
ghost use Rattle.tagged_terms.specs.Readings.{signs_of, application};
ghost use Rattle.tagged_terms.specs.Terms.{stranger as strange_term, single, applied_two, assembled, type_below as below, term_at, tag_of};

use crate::Symbol;
use fo_terms::FoTerm;
use hol_terms::{Konst, Term, Ty, copy, copy_ty};
use std::alloc::Global;
use text_kit::{NoMemory, Rows, Shared};

/// What stands for a term that isn't well tagged.
fn stranger() -> Term
    ensures { result ≡ strange_term }
{
    Term::Con(Konst::False)
}

/// The type of what stands below the symbol.
fn type_below(symbols: &[Symbol], f: u64, s: &Ty) -> Result<Ty, NoMemory>
    ensures { IfOk result (λ a. a ≡ below (signs_of symbols.now f) s.now) }
{
    match symbols.get(f as usize) {
        Some(Symbol::Tag(a)) => copy_ty(a),
        Some(Symbol::Apply) => copy_ty(s),
        Some(Symbol::Constant(_, _)) => copy_ty(s),
        None => copy_ty(s),
    }
}

/// The application of one term to another.
fn apply(alloc: Global, f: &Term, x: &Term) -> Result<Term, NoMemory>
    ensures { IfOk result (λ d. d ≡ application f.now x.now) }
{
    let left = Shared::new(alloc, copy(f)?)?;
    let right = Shared::new(alloc, copy(x)?)?;
    Ok(Term::App(left, right))
}

fn tagged(terms: &[Term]) -> Result<Term, NoMemory>
    ensures { IfOk result (λ d. d ≡ single terms.now) }
{
    match terms {
        [d] => copy(d),
        _ => Ok(stranger()),
    }
}

fn applied(alloc: Global, terms: &[Term]) -> Result<Term, NoMemory>
    ensures { IfOk result (λ d. d ≡ applied_two terms.now) }
{
    match terms {
        [f, x] => apply(alloc, f, x),
        _ => Ok(stranger()),
    }
}

/// A symbol with the terms that its arguments stand for.
fn assemble(alloc: Global, symbols: &[Symbol], f: u64, terms: &[Term]) -> Result<Term, NoMemory>
    ensures { IfOk result (λ d. d ≡ assembled (signs_of symbols.now f) terms.now) }
{
    match symbols.get(f as usize) {
        Some(Symbol::Tag(_)) => tagged(terms),
        Some(Symbol::Apply) => applied(alloc, terms),
        Some(Symbol::Constant(d, _)) => copy(d),
        None => Ok(stranger()),
    }
}

#[cycle(decoding)]
fn decode_at(t: &FoTerm, alloc: Global, symbols: &[Symbol], s: &Ty) -> Result<Term, NoMemory>
    ensures { IfOk result (λ d. d ≡ term_at (signs_of symbols.now) t.now s.now) }
{
    match t {
        FoTerm::Var(x) => Ok(Term::Free(*x, copy_ty(s)?)),
        FoTerm::Fun(f, args) => {
            let below = type_below(symbols, *f, s)?;
            let parts = decode_all(args.as_slice(), alloc, symbols, &below)?;
            assemble(alloc, symbols, *f, parts.as_slice())
        }
    }
}

#[cycle(decoding)]
fn decode_all(
    terms: &[FoTerm],
    alloc: Global,
    symbols: &[Symbol],
    s: &Ty,
) -> Result<Rows<Term>, NoMemory>
    ensures { IfOk result (λ ds. ds ≡ map (λ t. term_at (signs_of symbols.now) t s.now) terms.now) }
{
    let mut out = Rows::begin(alloc);
    for t in terms {
        out.push(decode_at(t, alloc, symbols, s)?)?;
    }
    Ok(out)
}

/// The term that a core of this type stands for, where the symbols have the table's meanings by their numbers; of a
/// tagged term, whatever type is given.
///
/// Types and the terms of constants are shared, not copied, so it takes time and room in proportion to the term.
pub fn decode(alloc: Global, symbols: &[Symbol], t: &FoTerm, s: &Ty) -> Result<Term, NoMemory>
    ensures { IfOk result (λ d. d ≡ term_at (signs_of symbols.now) t.now s.now) }
{
    decode_at(t, alloc, symbols, s)
}

/// The type that the tag at the head of a tagged term says.
pub fn type_of_tag(symbols: &[Symbol], t: &FoTerm) -> Result<Ty, NoMemory>
    ensures { IfOk result (λ a. a ≡ tag_of (signs_of symbols.now) t.now) }
{
    match t {
        FoTerm::Var(_) => Ok(Ty::Base(0)),
        FoTerm::Fun(f, _) => type_below(symbols, *f, &Ty::Base(0)),
    }
}
