ghost use Rattle.std.specs.Prelude.{◌≡◌, IfOk};
ghost use Rattle.fo_terms.specs.declared.atom.Atom.TheVariants.{Holds, Eq};
ghost use Rattle.fo_terms.specs.Substitution.{put_literals};
ghost use Rattle.tagged_terms.specs.Readings.{signs_of};
ghost use Rattle.tagged_terms.specs.Clauses.{formula_of};
ghost use Rattle.clause_instances.specs.Images.{image};
ghost use Rattle.clause_instances.specs.Theorems.{clause_of};

use clause_instances::{Image, literals_image};
use fo_terms::{Atom, FoTerm, Literal};
use hol_clauses::TypedLiteral;
use hol_terms::{Term, Ty};
use kernel_rules::equation;
use std::alloc::Global;
use tagged_terms::{Symbol, decode, type_of_tag};
use text_kit::{NoMemory, Rows};

/// What a tagged term stands for.
fn term(alloc: Global, symbols: &[Symbol], t: &FoTerm) -> Result<Term, NoMemory>
    ensures { IfOk result (λ d. d ≡ formula_of (signs_of symbols.now) (Holds t.now)) }
{
    let kind = Ty::Base(0);
    decode(alloc, symbols, t, &kind)
}

/// The formula that a tagged atom stands for.
fn formula(alloc: Global, symbols: &[Symbol], a: &Atom) -> Result<Term, NoMemory>
    ensures { IfOk result (λ d. d ≡ formula_of (signs_of symbols.now) a.now) }
{
    match a {
        Atom::Holds(t) => term(alloc, symbols, t),
        Atom::Eq(s, t) => equality(alloc, symbols, s, t),
    }
}

/// The equation between what two tagged terms stand for.
fn equality(alloc: Global, symbols: &[Symbol], s: &FoTerm, t: &FoTerm) -> Result<Term, NoMemory>
    ensures { IfOk result (λ d. d ≡ formula_of (signs_of symbols.now) (Eq s.now t.now)) }
{
    let left = term(alloc, symbols, s)?;
    let right = term(alloc, symbols, t)?;
    let kind = type_of_tag(symbols, s)?;
    equation(alloc, kind, &left, &right)
}

/// The literals that tagged literals stand for.
fn typed_literals(
    alloc: Global,
    symbols: &[Symbol],
    literals: &[Literal],
) -> Result<Rows<TypedLiteral>, NoMemory>
    ensures { IfOk result (λ ls. ls ≡ clause_of (signs_of symbols.now) literals.now) }
{
    let mut out = Rows::begin(alloc);
    for l in literals {
        out.push(TypedLiteral {
            positive: l.positive,
            atom: formula(alloc, symbols, &l.atom)?,
        })?;
    }
    Ok(out)
}

/// What the instance of a tagged clause stands for.
pub fn typed_instance(
    alloc: Global,
    symbols: &[Symbol],
    u: &Image,
    literals: &[Literal],
) -> Result<Rows<TypedLiteral>, NoMemory>
    ensures { IfOk result (λ ls. ls ≡ clause_of (signs_of symbols.now) (put_literals (image u.now.by u.now.binds.now u.now.seen.now) literals.now)) }
{
    let put = literals_image(alloc, u, literals)?;
    typed_literals(alloc, symbols, put.as_slice())
}
