ghost use Rattle.std.specs.Prelude.{◌≡◌, ℕ, ◌+◌, ◌≤◌, MatchResult, IfOk, ◌∷◌};
ghost use Rattle.theory_syntax.specs.Grammar.{Formula, Chain, Neg, Eq, App, Args, Atom, sign, lower, right, extend};
ghost use Rattle.theory_syntax.specs.inner.Parts.{Got, Fault_of, IsNot};
ghost use Rattle.theory_syntax.specs.declared.tokens.Tok.TheVariants as tok;
ghost use Rattle.theory_syntax.specs.declared.tokens.Quant.{Quant as QuantOf};
ghost use Rattle.theory_syntax.specs.inner.Part.{sort_of};

use crate::front::{
    AtomFront, Operand, atom_front, behind, binder_sign, operand_front, starts_atom, tilde, word,
};
use crate::type_reader::whole;
use crate::{Op, Quant, Tok, Tree, TyTree, Word};
use first_fault::Fault;
use std::alloc::Global;
use text_kit::{NoMemory, Rows, Shared};

/// What may stand at a deeper level.
#[derive(Clone, Copy, Drop)]
pub(crate) enum Part {
    Formula,
    Chain(Op),
    Neg,
}

fn sign_of(op: Op) -> Tok
    ensures { result ≡ sign op }
{
    match op {
        Op::Imp => Tok::Imp,
        Op::Or => Tok::Bar,
        Op::And => Tok::Amp,
    }
}

fn round(alloc: Global, n: u64, a: Tree) -> Result<Tree, NoMemory>
    ensures { IfOk result (λ t. t ≡ Tree.Round n a) }
{
    let inner = Shared::new(alloc, a)?;
    Ok(Tree::Round(n, inner))
}

fn not(alloc: Global, n: u64, a: Tree) -> Result<Tree, NoMemory>
    ensures { IfOk result (λ t. t ≡ Tree.Not n a) }
{
    let inner = Shared::new(alloc, a)?;
    Ok(Tree::Not(n, inner))
}

fn join(alloc: Global, op: Op, a: Tree, b: Tree) -> Result<Tree, NoMemory>
    ensures { IfOk result (λ t. t ≡ Tree.Join op a b) }
{
    let left = Shared::new(alloc, a)?;
    let right = Shared::new(alloc, b)?;
    Ok(Tree::Join(op, left, right))
}

fn equals(alloc: Global, a: Tree, b: Tree) -> Result<Tree, NoMemory>
    ensures { IfOk result (λ t. t ≡ Tree.Equals a b) }
{
    let left = Shared::new(alloc, a)?;
    let right = Shared::new(alloc, b)?;
    Ok(Tree::Equals(left, right))
}

/// A head, which may have arguments already, with one argument more.
fn apply(alloc: Global, f: Tree, x: Tree) -> Result<Tree, NoMemory>
    ensures { IfOk result (λ t. t ≡ extend f x) }
{
    match f {
        Tree::Apply(head, args) => {
            let mut more = args;
            more.push(x)?;
            Ok(Tree::Apply(head, more))
        }
        other => {
            let mut args = Rows::begin(alloc);
            args.push(x)?;
            let head = Shared::new(alloc, other)?;
            Ok(Tree::Apply(head, args))
        }
    }
}

fn bind(alloc: Global, q: Quant, n: u64, x: Word, a: TyTree, b: Tree) -> Result<Tree, NoMemory>
    ensures { IfOk result (λ t. t ≡ Tree.Bind q n x a b) }
{
    let inner = Shared::new(alloc, b)?;
    Ok(Tree::Bind(q, n, x, a, inner))
}

/// The fault of a part that would stand above the limit.
fn beyond(limit: u32, level: u32, part: Part, toks: &[Tok]) -> Fault
    requires { limit ≤ level }
    ensures { Fault_of limit (level + 1) (sort_of part) toks.now result }
{
    match operand_front(toks) {
        Operand::Word(_, _) => Fault::TooDeep(toks.len()),
        Operand::Truth(_, _, _) => Fault::TooDeep(toks.len()),
        Operand::Open(_, _) => Fault::TooDeep(toks.len()),
        Operand::Tilde(_, _) => Fault::TooDeep(toks.len()),
        Operand::Quant(_, _, _) => match part {
            Part::Formula => Fault::TooDeep(toks.len()),
            Part::Chain(_) => Fault::Syntax(toks.len()),
            Part::Neg => Fault::Syntax(toks.len()),
        },
        Operand::Other => Fault::Syntax(toks.len()),
    }
}

#[cycle(terms)]
fn deeper<'a>(
    alloc: Global,
    limit: u32,
    level: u32,
    part: Part,
    toks: &'a [Tok],
) -> Result<(Tree, &'a [Tok]), Fault>
    requires { level ≤ limit }
    ensures { MatchResult result (λ r. Got limit (level + 1) (sort_of part) toks.now r.0 r.1.now) (λ e. Fault_of limit (level + 1) (sort_of part) toks.now e) }
{
    if level < limit {
        match part {
            Part::Formula => formula(alloc, limit, level + 1, &*toks),
            Part::Chain(op) => chain(alloc, limit, level + 1, op, &*toks),
            Part::Neg => neg(alloc, limit, level + 1, &*toks),
        }
    } else {
        Err(beyond(limit, level, part, toks))
    }
}

#[cycle(terms)]
fn atom<'a>(
    alloc: Global,
    limit: u32,
    level: u32,
    toks: &'a [Tok],
) -> Result<(Tree, &'a [Tok]), Fault>
    requires { level ≤ limit }
    ensures { MatchResult result (λ r. Got limit level Atom toks.now r.0 r.1.now) (λ e. Fault_of limit level Atom toks.now e) }
{
    match atom_front(toks) {
        AtomFront::Word(x, rest) => Ok((Tree::Name(x), rest)),
        AtomFront::Truth(b, n, rest) => Ok((Tree::Truth(b, n), rest)),
        AtomFront::Open(n, inner) => match deeper(alloc, limit, level, Part::Formula, inner) {
            Err(e) => Err(e),
            Ok((a, end)) => match behind(Tok::Close, end) {
                None => Err(Fault::Syntax(end.len())),
                Some(rest) => match round(alloc, n, a) {
                    Err(_) => Err(Fault::NoMemory),
                    Ok(t) => Ok((t, rest)),
                },
            },
        },
        AtomFront::Other => Err(Fault::Syntax(toks.len())),
    }
}

#[cycle(terms)]
fn args<'a>(
    alloc: Global,
    limit: u32,
    level: u32,
    head: Tree,
    toks: &'a [Tok],
) -> Result<(Tree, &'a [Tok]), Fault>
    requires { level ≤ limit }
    ensures { MatchResult result (λ r. Got limit level (Args head) toks.now r.0 r.1.now) (λ e. Fault_of limit level (Args head) toks.now e) }
{
    let mut whole = head;
    let mut rest = toks;
    'more: while starts_atom(rest) {
        match atom(alloc, limit, level, rest) {
            Err(e) => return Err(e),
            Ok((x, end)) => match apply(alloc, whole, x) {
                Err(_) => return Err(Fault::NoMemory),
                Ok(t) => {
                    whole = t;
                    rest = end;
                }
            },
        }
    }
    Ok((whole, rest))
}

#[cycle(terms)]
fn app<'a>(
    alloc: Global,
    limit: u32,
    level: u32,
    toks: &'a [Tok],
) -> Result<(Tree, &'a [Tok]), Fault>
    requires { level ≤ limit }
    ensures { MatchResult result (λ r. Got limit level App toks.now r.0 r.1.now) (λ e. Fault_of limit level App toks.now e) }
{
    match atom(alloc, limit, level, &*toks) {
        Err(e) => Err(e),
        Ok((head, end)) => args(alloc, limit, level, head, end),
    }
}

#[cycle(terms)]
fn eq<'a>(
    alloc: Global,
    limit: u32,
    level: u32,
    toks: &'a [Tok],
) -> Result<(Tree, &'a [Tok]), Fault>
    requires { level ≤ limit }
    ensures { MatchResult result (λ r. Got limit level Eq toks.now r.0 r.1.now) (λ e. Fault_of limit level Eq toks.now e) }
{
    match app(alloc, limit, level, &*toks) {
        Err(e) => Err(e),
        Ok((a, end)) => match behind(Tok::Equal, end) {
            None => Ok((a, end)),
            Some(more) => match app(alloc, limit, level, more) {
                Err(e) => Err(e),
                Ok((b, rest)) => match behind(Tok::Equal, rest) {
                    Some(_) => Err(Fault::Syntax(rest.len())),
                    None => match equals(alloc, a, b) {
                        Err(_) => Err(Fault::NoMemory),
                        Ok(t) => Ok((t, rest)),
                    },
                },
            },
        },
    }
}

#[cycle(terms)]
fn neg<'a>(
    alloc: Global,
    limit: u32,
    level: u32,
    toks: &'a [Tok],
) -> Result<(Tree, &'a [Tok]), Fault>
    requires { level ≤ limit }
    ensures { MatchResult result (λ r. Got limit level Neg toks.now r.0 r.1.now) (λ e. Fault_of limit level Neg toks.now e) }
{
    match tilde(toks) {
        None => eq_as_neg(alloc, limit, level, &*toks),
        Some((n, more)) => match deeper(alloc, limit, level, Part::Neg, more) {
            Err(e) => Err(e),
            Ok((a, rest)) => match not(alloc, n, a) {
                Err(_) => Err(Fault::NoMemory),
                Ok(t) => Ok((t, rest)),
            },
        },
    }
}

/// An equation where no `~` stands.
#[cycle(terms)]
fn eq_as_neg<'a>(
    alloc: Global,
    limit: u32,
    level: u32,
    toks: &'a [Tok],
) -> Result<(Tree, &'a [Tok]), Fault>
    requires room { level ≤ limit }
    requires start { (n : ℕ) → IsNot (tok.Tilde n) toks.now }
    ensures { MatchResult result (λ r. Got limit level Neg toks.now r.0 r.1.now) (λ e. Fault_of limit level Neg toks.now e) }
{
    match eq(alloc, limit, level, &*toks) {
        Err(e) => Err(e),
        Ok((a, rest)) => Ok((a, rest)),
    }
}

#[cycle(terms)]
fn below<'a>(
    alloc: Global,
    limit: u32,
    level: u32,
    op: Op,
    toks: &'a [Tok],
) -> Result<(Tree, &'a [Tok]), Fault>
    requires { level ≤ limit }
    ensures { MatchResult result (λ r. Got limit level (lower op) toks.now r.0 r.1.now) (λ e. Fault_of limit level (lower op) toks.now e) }
{
    match op {
        Op::Imp => chain(alloc, limit, level, Op::Or, &*toks),
        Op::Or => chain(alloc, limit, level, Op::And, &*toks),
        Op::And => neg(alloc, limit, level, &*toks),
    }
}

#[cycle(terms)]
fn right_part<'a>(
    alloc: Global,
    limit: u32,
    level: u32,
    op: Op,
    toks: &'a [Tok],
) -> Result<(Tree, &'a [Tok]), Fault>
    requires { level ≤ limit }
    ensures { MatchResult result (λ r. Got limit (level + 1) (right op) toks.now r.0 r.1.now) (λ e. Fault_of limit (level + 1) (right op) toks.now e) }
{
    match op {
        Op::Imp => deeper(alloc, limit, level, Part::Formula, &*toks),
        Op::Or => deeper(alloc, limit, level, Part::Chain(Op::Or), &*toks),
        Op::And => deeper(alloc, limit, level, Part::Chain(Op::And), &*toks),
    }
}

#[cycle(terms)]
fn chain<'a>(
    alloc: Global,
    limit: u32,
    level: u32,
    op: Op,
    toks: &'a [Tok],
) -> Result<(Tree, &'a [Tok]), Fault>
    requires { level ≤ limit }
    ensures { MatchResult result (λ r. Got limit level (Chain op) toks.now r.0 r.1.now) (λ e. Fault_of limit level (Chain op) toks.now e) }
{
    match below(alloc, limit, level, op, &*toks) {
        Err(e) => Err(e),
        Ok((a, end)) => match behind(sign_of(op), end) {
            None => Ok((a, end)),
            Some(more) => match right_part(alloc, limit, level, op, more) {
                Err(e) => Err(e),
                Ok((b, rest)) => match join(alloc, op, a, b) {
                    Err(_) => Err(Fault::NoMemory),
                    Ok(t) => Ok((t, rest)),
                },
            },
        },
    }
}

/// Reads a term at the front.
#[cycle(terms)]
pub(crate) fn formula<'a>(
    alloc: Global,
    limit: u32,
    level: u32,
    toks: &'a [Tok],
) -> Result<(Tree, &'a [Tok]), Fault>
    requires { level ≤ limit }
    ensures { MatchResult result (λ r. Got limit level Formula toks.now r.0 r.1.now) (λ e. Fault_of limit level Formula toks.now e) }
{
    match binder_sign(toks) {
        None => plain(alloc, limit, level, &*toks),
        Some((q, n, bound)) => binder(alloc, limit, level, &*toks, q, n, bound),
    }
}

/// A term where no binder stands.
#[cycle(terms)]
fn plain<'a>(
    alloc: Global,
    limit: u32,
    level: u32,
    toks: &'a [Tok],
) -> Result<(Tree, &'a [Tok]), Fault>
    requires room { level ≤ limit }
    requires start { (q : QuantOf) (n : ℕ) → IsNot (tok.Quant q n) toks.now }
    ensures { MatchResult result (λ r. Got limit level Formula toks.now r.0 r.1.now) (λ e. Fault_of limit level Formula toks.now e) }
{
    match chain(alloc, limit, level, Op::Imp, &*toks) {
        Err(e) => Err(e),
        Ok((a, rest)) => Ok((a, rest)),
    }
}

/// What stands behind a binder.
#[cycle(terms)]
fn binder<'a>(
    alloc: Global,
    limit: u32,
    level: u32,
    toks: &[Tok],
    q: Quant,
    n: u64,
    bound: &'a [Tok],
) -> Result<(Tree, &'a [Tok]), Fault>
    requires room { level ≤ limit }
    requires start { toks.now ≡ tok.Quant q n ∷ bound.now }
    ensures { MatchResult result (λ r. Got limit level Formula toks.now r.0 r.1.now) (λ e. Fault_of limit level Formula toks.now e) }
{
    match word(bound) {
        None => Err(Fault::Syntax(bound.len())),
        Some((x, named)) => match behind(Tok::Colon, named) {
            None => Err(Fault::Syntax(named.len())),
            Some(typed) => match whole(alloc, limit, level, typed) {
                Err(e) => Err(e),
                Ok((a, end)) => match behind(Tok::Dot, end) {
                    None => Err(Fault::Syntax(end.len())),
                    Some(more) => match deeper(alloc, limit, level, Part::Formula, more) {
                        Err(e) => Err(e),
                        Ok((b, rest)) => match bind(alloc, q, n, x, a, b) {
                            Err(_) => Err(Fault::NoMemory),
                            Ok(t) => Ok((t, rest)),
                        },
                    },
                },
            },
        },
    }
}
