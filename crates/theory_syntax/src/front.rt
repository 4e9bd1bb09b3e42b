ghost use Rattle.std.specs.Prelude.{◌≡◌, ℕ, ◌∷◌, MatchOption, MatchBool};
ghost use Rattle.theory_syntax.specs.declared.tokens.Tok.TheVariants as tok;
ghost use Rattle.theory_syntax.specs.declared.tokens.Quant.{Quant as QuantOf};
ghost use Rattle.theory_syntax.specs.inner.Parts.{IsNot, Stands, NoWord, NoAtom, StartsAtom};
ghost use Rattle.theory_syntax.specs.inner.Front.{IsOperand, IsAtomFront, IsTypeFront, IsItemFront};

use crate::{Quant, Tok, Word};

/// The first token of an operand, and the tokens behind it.
pub(crate) enum Operand<'a> {
    Word(Word, &'a [Tok]),
    Truth(bool, u64, &'a [Tok]),
    Quant(Quant, u64, &'a [Tok]),
    Open(u64, &'a [Tok]),
    Tilde(u64, &'a [Tok]),
    Other,
}

/// How an operand starts.
pub(crate) fn operand_front(toks: &[Tok]) -> Operand
    ensures { IsOperand toks.now result }
{
    match toks {
        [] => Operand::Other,
        [first, rest @ ..] => match *first {
            Tok::Word(x) => Operand::Word(x, rest),
            Tok::Truth(b, n) => Operand::Truth(b, n, rest),
            Tok::Quant(q, n) => Operand::Quant(q, n, rest),
            Tok::Open(n) => Operand::Open(n, rest),
            Tok::Tilde(n) => Operand::Tilde(n, rest),
            Tok::Bool => Operand::Other,
            Tok::Colon => Operand::Other,
            Tok::Dot => Operand::Other,
            Tok::Semi => Operand::Other,
            Tok::Arrow => Operand::Other,
            Tok::Imp => Operand::Other,
            Tok::Bar => Operand::Other,
            Tok::Amp => Operand::Other,
            Tok::Equal => Operand::Other,
            Tok::Close => Operand::Other,
            Tok::Type => Operand::Other,
            Tok::Const => Operand::Other,
            Tok::Fact => Operand::Other,
            Tok::Goal => Operand::Other,
            Tok::Assume => Operand::Other,
        },
    }
}

/// The first token of an atom, and the tokens behind it.
pub(crate) enum AtomFront<'a> {
    Word(Word, &'a [Tok]),
    Truth(bool, u64, &'a [Tok]),
    Open(u64, &'a [Tok]),
    Other,
}

/// How an atom starts.
pub(crate) fn atom_front(toks: &[Tok]) -> AtomFront
    ensures { IsAtomFront toks.now result }
{
    match toks {
        [] => AtomFront::Other,
        [first, rest @ ..] => match *first {
            Tok::Word(x) => AtomFront::Word(x, rest),
            Tok::Truth(b, n) => AtomFront::Truth(b, n, rest),
            Tok::Quant(_, _) => AtomFront::Other,
            Tok::Open(n) => AtomFront::Open(n, rest),
            Tok::Tilde(_) => AtomFront::Other,
            Tok::Bool => AtomFront::Other,
            Tok::Colon => AtomFront::Other,
            Tok::Dot => AtomFront::Other,
            Tok::Semi => AtomFront::Other,
            Tok::Arrow => AtomFront::Other,
            Tok::Imp => AtomFront::Other,
            Tok::Bar => AtomFront::Other,
            Tok::Amp => AtomFront::Other,
            Tok::Equal => AtomFront::Other,
            Tok::Close => AtomFront::Other,
            Tok::Type => AtomFront::Other,
            Tok::Const => AtomFront::Other,
            Tok::Fact => AtomFront::Other,
            Tok::Goal => AtomFront::Other,
            Tok::Assume => AtomFront::Other,
        },
    }
}

/// The first token of a type, and the tokens behind it.
pub(crate) enum TypeFront<'a> {
    Word(Word, &'a [Tok]),
    Bool(&'a [Tok]),
    Open(u64, &'a [Tok]),
    Other,
}

/// How a type starts.
pub(crate) fn type_front(toks: &[Tok]) -> TypeFront
    ensures { IsTypeFront toks.now result }
{
    match toks {
        [] => TypeFront::Other,
        [first, rest @ ..] => match *first {
            Tok::Word(x) => TypeFront::Word(x, rest),
            Tok::Truth(_, _) => TypeFront::Other,
            Tok::Quant(_, _) => TypeFront::Other,
            Tok::Open(n) => TypeFront::Open(n, rest),
            Tok::Tilde(_) => TypeFront::Other,
            Tok::Bool => TypeFront::Bool(rest),
            Tok::Colon => TypeFront::Other,
            Tok::Dot => TypeFront::Other,
            Tok::Semi => TypeFront::Other,
            Tok::Arrow => TypeFront::Other,
            Tok::Imp => TypeFront::Other,
            Tok::Bar => TypeFront::Other,
            Tok::Amp => TypeFront::Other,
            Tok::Equal => TypeFront::Other,
            Tok::Close => TypeFront::Other,
            Tok::Type => TypeFront::Other,
            Tok::Const => TypeFront::Other,
            Tok::Fact => TypeFront::Other,
            Tok::Goal => TypeFront::Other,
            Tok::Assume => TypeFront::Other,
        },
    }
}

/// The declarations that have a name and a colon.
#[derive(Clone, Copy, Drop)]
pub(crate) enum Heading {
    Const,
    Fact,
    Goal,
}

/// The first token of a declaration, and the tokens behind it.
pub(crate) enum ItemFront<'a> {
    Type(&'a [Tok]),
    Stated(Heading, &'a [Tok]),
    Other,
}

/// How a declaration starts.
pub(crate) fn item_front(toks: &[Tok]) -> ItemFront
    ensures { IsItemFront toks.now result }
{
    match toks {
        [] => ItemFront::Other,
        [first, rest @ ..] => match *first {
            Tok::Word(_) => ItemFront::Other,
            Tok::Truth(_, _) => ItemFront::Other,
            Tok::Quant(_, _) => ItemFront::Other,
            Tok::Open(_) => ItemFront::Other,
            Tok::Tilde(_) => ItemFront::Other,
            Tok::Bool => ItemFront::Other,
            Tok::Colon => ItemFront::Other,
            Tok::Dot => ItemFront::Other,
            Tok::Semi => ItemFront::Other,
            Tok::Arrow => ItemFront::Other,
            Tok::Imp => ItemFront::Other,
            Tok::Bar => ItemFront::Other,
            Tok::Amp => ItemFront::Other,
            Tok::Equal => ItemFront::Other,
            Tok::Close => ItemFront::Other,
            Tok::Type => ItemFront::Type(rest),
            Tok::Const => ItemFront::Stated(Heading::Const, rest),
            Tok::Fact => ItemFront::Stated(Heading::Fact, rest),
            Tok::Goal => ItemFront::Stated(Heading::Goal, rest),
            Tok::Assume => ItemFront::Other,
        },
    }
}

/// Whether an atom starts here.
pub(crate) fn starts_atom(toks: &[Tok]) -> bool
    ensures { MatchBool result (StartsAtom toks.now) (NoAtom toks.now) }
{
    match atom_front(toks) {
        AtomFront::Word(_, _) => true,
        AtomFront::Truth(_, _, _) => true,
        AtomFront::Open(_, _) => true,
        AtomFront::Other => false,
    }
}

/// The tokens behind the wanted one, where it is the first.
pub(crate) fn behind(wanted: Tok, toks: &[Tok]) -> Option<&[Tok]>
    ensures { MatchOption result (IsNot wanted toks.now) (λ rest. toks.now ≡ wanted ∷ rest.now) }
{
    match toks {
        [] => None,
        [first, rest @ ..] => { if *first == wanted { Some(rest) } else { None } }
    }
}

/// The name at the front, and the tokens behind it.
pub(crate) fn word(toks: &[Tok]) -> Option<(Word, &[Tok])>
    ensures { MatchOption result (NoWord toks.now) (λ r. toks.now ≡ tok.Word r.0 ∷ r.1.now) }
{
    match atom_front(toks) {
        AtomFront::Word(x, rest) => Some((x, rest)),
        AtomFront::Truth(_, _, _) => None,
        AtomFront::Open(_, _) => None,
        AtomFront::Other => None,
    }
}

/// The `~` at the front, with its place, and the tokens behind it.
pub(crate) fn tilde(toks: &[Tok]) -> Option<(u64, &[Tok])>
    ensures { MatchOption result ((n : ℕ) → IsNot (tok.Tilde n) toks.now) (λ r. toks.now ≡ tok.Tilde r.0 ∷ r.1.now) }
{
    match operand_front(toks) {
        Operand::Tilde(n, rest) => Some((n, rest)),
        Operand::Word(_, _) => None,
        Operand::Truth(_, _, _) => None,
        Operand::Open(_, _) => None,
        Operand::Quant(_, _, _) => None,
        Operand::Other => None,
    }
}

/// The binder at the front, with its place, and the tokens behind it.
pub(crate) fn binder_sign(toks: &[Tok]) -> Option<(Quant, u64, &[Tok])>
    ensures { MatchOption result ((q : QuantOf) (n : ℕ) → IsNot (tok.Quant q n) toks.now) (λ r. toks.now ≡ tok.Quant r.0 r.1 ∷ r.2.now) }
{
    match operand_front(toks) {
        Operand::Quant(q, n, rest) => Some((q, n, rest)),
        Operand::Word(_, _) => None,
        Operand::Truth(_, _, _) => None,
        Operand::Open(_, _) => None,
        Operand::Tilde(_, _) => None,
        Operand::Other => None,
    }
}

/// Whether the wanted token is the first.
pub(crate) fn stands(wanted: Tok, toks: &[Tok]) -> bool
    ensures { MatchBool result (Stands wanted toks.now) (IsNot wanted toks.now) }
{
    behind(wanted, toks).is_some()
}
