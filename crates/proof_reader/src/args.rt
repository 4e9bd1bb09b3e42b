ghost use Rattle.std.specs.Prelude.{◌≡◌, [], ◌∷◌, MatchResult};
ghost use Rattle.proof_syntax.specs.Names as names;
ghost use Rattle.proof_syntax.specs.Forms.{FactArg, NumberArg, TypeArg, TermArg};
ghost use Rattle.proof_syntax.specs.Machine.{FactKind, NumberKind, TypeKind, TermKind};
ghost use Rattle.proof_reader.specs.inner.Parts.{GotArg, FailsArg, GotArgs, FailsArgs};

use hol_terms::{Term, Ty};
use kernel_rules::ThmId;
use proof_syntax::PartFault;
use proof_terms::{Lookup, read_name, read_number, read_term, read_type, sign};
use std::alloc::Global;

/// A fact, behind a space.
pub fn fact<'a>(names: &Lookup, text: &'a [u8]) -> Result<(u32, &'a [u8]), PartFault>
    ensures { MatchResult result (λ r. GotArg names.now text.now (FactArg r.0) r.1.now) (λ e. FailsArg names.now FactKind text.now e) }
{
    match sign(b' ', text) {
        None => Err(PartFault::Stops(text.len())),
        Some(inner) => match read_name(names.facts(), inner) {
            Err(e) => Err(e),
            Ok((number, rest)) => Ok((number, rest)),
        },
    }
}

/// A number, behind a space.
pub fn number(text: &[u8]) -> Result<(u64, &[u8]), PartFault>
    ensures { (ns : names.Names) → MatchResult result (λ r. GotArg ns text.now (NumberArg r.0) r.1.now) (λ e. FailsArg ns NumberKind text.now e) }
{
    match sign(b' ', text) {
        None => Err(PartFault::Stops(text.len())),
        Some(inner) => match read_number(inner) {
            Err(e) => Err(e),
            Ok((number, rest)) => Ok((number, rest)),
        },
    }
}

/// A type, behind a space.
pub fn type_behind<'a>(
    alloc: Global,
    names: &Lookup,
    text: &'a [u8],
) -> Result<(Ty, &'a [u8]), PartFault>
    ensures { MatchResult result (λ r. GotArg names.now text.now (TypeArg r.0) r.1.now) (λ e. FailsArg names.now TypeKind text.now e) }
{
    match sign(b' ', text) {
        None => Err(PartFault::Stops(text.len())),
        Some(inner) => match read_type(alloc, names, inner) {
            Err(e) => Err(e),
            Ok((ty, rest)) => Ok((ty, rest)),
        },
    }
}

/// A term, behind a space.
pub fn term<'a>(
    alloc: Global,
    names: &Lookup,
    text: &'a [u8],
) -> Result<(Term, &'a [u8]), PartFault>
    ensures { MatchResult result (λ r. GotArg names.now text.now (TermArg r.0) r.1.now) (λ e. FailsArg names.now TermKind text.now e) }
{
    match sign(b' ', text) {
        None => Err(PartFault::Stops(text.len())),
        Some(inner) => match read_term(alloc, names, 0, inner) {
            Err(e) => Err(e),
            Ok((term, rest)) => Ok((term, rest)),
        },
    }
}

/// A theorem, the last argument of a step.
pub fn theorem(text: &[u8]) -> Result<(ThmId, &[u8]), PartFault>
    ensures { (ns : names.Names) → MatchResult result (λ r. GotArgs ns text.now (NumberArg r.0.0 ∷ []) r.1.now) (λ e. FailsArgs ns (NumberKind ∷ []) text.now e) }
{
    match number(text) {
        Err(e) => Err(e),
        Ok((a, rest)) => Ok((ThmId(a), rest)),
    }
}

/// Two theorems.
pub fn two_theorems(text: &[u8]) -> Result<(ThmId, ThmId, &[u8]), PartFault>
    ensures { (ns : names.Names) → MatchResult result (λ r. GotArgs ns text.now (NumberArg r.0.0 ∷ NumberArg r.1.0 ∷ []) r.2.now) (λ e. FailsArgs ns (NumberKind ∷ NumberKind ∷ []) text.now e) }
{
    match number(text) {
        Err(e) => Err(e),
        Ok((a, behind)) => match theorem(behind) {
            Err(e) => Err(e),
            Ok((b, rest)) => Ok((ThmId(a), b, rest)),
        },
    }
}

/// Three theorems.
pub fn three_theorems(text: &[u8]) -> Result<(ThmId, ThmId, ThmId, &[u8]), PartFault>
    ensures { (ns : names.Names) → MatchResult result (λ r. GotArgs ns text.now (NumberArg r.0.0 ∷ NumberArg r.1.0 ∷ NumberArg r.2.0 ∷ []) r.3.now) (λ e. FailsArgs ns (NumberKind ∷ NumberKind ∷ NumberKind ∷ []) text.now e) }
{
    match number(text) {
        Err(e) => Err(e),
        Ok((a, behind)) => match two_theorems(behind) {
            Err(e) => Err(e),
            Ok((b, c, rest)) => Ok((ThmId(a), b, c, rest)),
        },
    }
}

/// A term and a theorem.
pub fn term_and_theorem<'a>(
    alloc: Global,
    names: &Lookup,
    text: &'a [u8],
) -> Result<(Term, ThmId, &'a [u8]), PartFault>
    ensures { MatchResult result (λ r. GotArgs names.now text.now (TermArg r.0 ∷ NumberArg r.1.0 ∷ []) r.2.now) (λ e. FailsArgs names.now (TermKind ∷ NumberKind ∷ []) text.now e) }
{
    match term(alloc, names, text) {
        Err(e) => Err(e),
        Ok((t, behind)) => match theorem(behind) {
            Err(e) => Err(e),
            Ok((a, rest)) => Ok((t, a, rest)),
        },
    }
}

/// A term and two theorems.
pub fn term_and_theorems<'a>(
    alloc: Global,
    names: &Lookup,
    text: &'a [u8],
) -> Result<(Term, ThmId, ThmId, &'a [u8]), PartFault>
    ensures { MatchResult result (λ r. GotArgs names.now text.now (TermArg r.0 ∷ NumberArg r.1.0 ∷ NumberArg r.2.0 ∷ []) r.3.now) (λ e. FailsArgs names.now (TermKind ∷ NumberKind ∷ NumberKind ∷ []) text.now e) }
{
    match term(alloc, names, text) {
        Err(e) => Err(e),
        Ok((t, behind)) => match two_theorems(behind) {
            Err(e) => Err(e),
            Ok((a, b, rest)) => Ok((t, a, b, rest)),
        },
    }
}

/// Two terms and a theorem.
pub fn terms_and_theorem<'a>(
    alloc: Global,
    names: &Lookup,
    text: &'a [u8],
) -> Result<(Term, Term, ThmId, &'a [u8]), PartFault>
    ensures { MatchResult result (λ r. GotArgs names.now text.now (TermArg r.0 ∷ TermArg r.1 ∷ NumberArg r.2.0 ∷ []) r.3.now) (λ e. FailsArgs names.now (TermKind ∷ TermKind ∷ NumberKind ∷ []) text.now e) }
{
    match term(alloc, names, text) {
        Err(e) => Err(e),
        Ok((s, behind)) => match term_and_theorem(alloc, names, behind) {
            Err(e) => Err(e),
            Ok((t, a, rest)) => Ok((s, t, a, rest)),
        },
    }
}

/// A type and a theorem.
fn type_and_theorem<'a>(
    alloc: Global,
    names: &Lookup,
    text: &'a [u8],
) -> Result<(Ty, ThmId, &'a [u8]), PartFault>
    ensures { MatchResult result (λ r. GotArgs names.now text.now (TypeArg r.0 ∷ NumberArg r.1.0 ∷ []) r.2.now) (λ e. FailsArgs names.now (TypeKind ∷ NumberKind ∷ []) text.now e) }
{
    match type_behind(alloc, names, text) {
        Err(e) => Err(e),
        Ok((ty, behind)) => match theorem(behind) {
            Err(e) => Err(e),
            Ok((a, rest)) => Ok((ty, a, rest)),
        },
    }
}

/// A variable and a theorem.
pub fn variable_and_theorem<'a>(
    alloc: Global,
    names: &Lookup,
    text: &'a [u8],
) -> Result<(u64, Ty, ThmId, &'a [u8]), PartFault>
    ensures { MatchResult result (λ r. GotArgs names.now text.now (NumberArg r.0 ∷ TypeArg r.1 ∷ NumberArg r.2.0 ∷ []) r.3.now) (λ e. FailsArgs names.now (NumberKind ∷ TypeKind ∷ NumberKind ∷ []) text.now e) }
{
    match number(text) {
        Err(e) => Err(e),
        Ok((variable, behind)) => match type_and_theorem(alloc, names, behind) {
            Err(e) => Err(e),
            Ok((ty, a, rest)) => Ok((variable, ty, a, rest)),
        },
    }
}

/// A type, a term and a theorem.
fn type_term_and_theorem<'a>(
    alloc: Global,
    names: &Lookup,
    text: &'a [u8],
) -> Result<(Ty, Term, ThmId, &'a [u8]), PartFault>
    ensures { MatchResult result (λ r. GotArgs names.now text.now (TypeArg r.0 ∷ TermArg r.1 ∷ NumberArg r.2.0 ∷ []) r.3.now) (λ e. FailsArgs names.now (TypeKind ∷ TermKind ∷ NumberKind ∷ []) text.now e) }
{
    match type_behind(alloc, names, text) {
        Err(e) => Err(e),
        Ok((ty, behind)) => match term_and_theorem(alloc, names, behind) {
            Err(e) => Err(e),
            Ok((t, a, rest)) => Ok((ty, t, a, rest)),
        },
    }
}

/// A variable, a term and a theorem.
pub fn variable_term_and_theorem<'a>(
    alloc: Global,
    names: &Lookup,
    text: &'a [u8],
) -> Result<(u64, Ty, Term, ThmId, &'a [u8]), PartFault>
    ensures { MatchResult result (λ r. GotArgs names.now text.now (NumberArg r.0 ∷ TypeArg r.1 ∷ TermArg r.2 ∷ NumberArg r.3.0 ∷ []) r.4.now) (λ e. FailsArgs names.now (NumberKind ∷ TypeKind ∷ TermKind ∷ NumberKind ∷ []) text.now e) }
{
    match number(text) {
        Err(e) => Err(e),
        Ok((variable, behind)) => match type_term_and_theorem(alloc, names, behind) {
            Err(e) => Err(e),
            Ok((ty, t, a, rest)) => Ok((variable, ty, t, a, rest)),
        },
    }
}
