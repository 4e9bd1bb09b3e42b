ghost use Rattle.std.specs.Prelude.{◌≡◌, ◌+◌, List, max, IfOk, IfSome};
ghost use Rattle.std.specs.Option.{ForSome};
ghost use Rattle.hol_terms.specs.Types.{is_ty, bool_ty, function_ty};
ghost use Rattle.theory_terms.specs.Answers.{Good};
ghost use Rattle.theory_terms.specs.Signature.{found};
ghost use Rattle.theory_terms.specs.Words.{word_at as bytes_of};
ghost use Rattle.theory_terms.specs.Meanings.{depth as depth_of, made as made_at, application as application_of, lambda as lambda_of, applied as put_to, sign as sign_at, signed as put_sign, named as name_meaning, const_as, operator_konst, bound as bound_part, quantifier as quantifier_of, quantified as quantified_by, truth as truth_konst};
ghost use Rattle.std.specs.Option.{option_map};
ghost use Rattle.theory_terms.specs.inner.Scopes.{variables, numbered_types};
ghost use Rattle.theory_terms.specs.inner.Parts.{meaning_of, Reads, Makes, sign_of};
ghost use Rattle.theory_terms.specs.Numbers.{IsNumbered, AreNumbered, AreNoted, Keeps};
ghost use Rattle.hol_terms.specs.declared.ty.Ty.{Ty as HolTy};

use crate::decls::Decls;
use crate::numbered::{Numbered, boolean, copy_numbered};
use crate::part::{DEEPEST, Part};
use crate::scope::{Scope, find};
use crate::type_table::TypeTable;
use crate::{TheoryFault, TheoryKind, word_at};
use hol_terms::{Konst, Term, Ty, copy_ty, same_ty};
use std::alloc::Global;
use text_kit::{NoMemory, Shared};
use theory_syntax::{Op, Quant, Word};

/// The signs that stand before or between their sides.
#[derive(Clone, Copy, Drop)]
pub(crate) enum Sign {
    Operator(Op),
    /// `=`
    Equality,
    /// `~`, with its place
    Negation(u64),
}

fn ill_typed(at: u64) -> TheoryFault
    ensures { result ≡ TheoryFault.At at TheoryKind.IllTyped }
{
    TheoryFault::At {
        at,
        kind: TheoryKind::IllTyped,
    }
}

pub(crate) fn is_bool(ty: &Ty) -> bool
    ensures { result ≡ is_ty bool_ty ty.now }
{
    same_ty(&Ty::Base(0), ty)
}

/// A term that is put together, where its tree isn't too deep.
fn made(at: u64, term: Shared<Term>, ty: Numbered, depth: u32) -> Result<Part, TheoryFault>
    requires { depth ≡ depth_of term }
    ensures { (table : List HolTy) → IsNumbered table ty → Reads (made_at at term ty.ty) table result }
{
    if depth <= DEEPEST {
        Ok(Part {
            at,
            term,
            ty,
            depth,
        })
    } else {
        Err(TheoryFault::At {
            at,
            kind: TheoryKind::TooDeep,
        })
    }
}

fn application(alloc: Global, f: Shared<Term>, x: Shared<Term>) -> Result<Shared<Term>, NoMemory>
    ensures { IfOk result (λ t. t ≡ application_of f x) }
{
    Shared::new(alloc, Term::App(f, x))
}

/// The application of a head to an argument, which has the type `ty`.
fn together(alloc: Global, f: Part, x: Part, ty: Numbered) -> Result<Part, TheoryFault>
    ensures { (table : List HolTy) → IsNumbered table ty → Reads (made_at f.at (application_of f.term x.term) ty.ty) table result }
{
    let at = f.at;
    let depth = 1 + f.depth.max(x.depth);
    let term = application(alloc, f.term, x.term)?;
    made(at, term, ty, depth)
}

/// A head with an argument more.
pub(crate) fn applied(
    alloc: Global,
    types: &TypeTable,
    f: Part,
    x: Part,
) -> Result<Part, TheoryFault>
    requires head { IsNumbered types.now f.ty }
    requires argument { IsNumbered types.now x.ty }
    ensures { Reads (put_to (meaning_of f) (meaning_of x)) types.now result }
{
    match types.target(f.at, &f.ty, x.at, &x.ty) {
        Err(e) => Err(e),
        Ok(ty) => together(alloc, f, x, ty),
    }
}

/// A term without parts.
fn leaf(at: u64, term: Shared<Term>, ty: Numbered) -> Part
    requires { depth_of term ≡ 1 }
    ensures meaning { meaning_of result ≡ record { at = at; term = term; ty = ty.ty } }
    ensures ty { result.ty ≡ ty }
{
    Part {
        at,
        term,
        ty,
        depth: 1,
    }
}

fn constant(alloc: Global, at: u64, k: Konst, ty: Numbered) -> Result<Part, NoMemory>
    ensures meaning { IfOk result (λ p. meaning_of p ≡ sign_at at k ty.ty) }
    ensures ty { IfOk result (λ p. p.ty ≡ ty) }
{
    let term = Shared::new(alloc, Term::Con(k))?;
    Ok(leaf(at, term, ty))
}

/// `true` or `false`.
pub(crate) fn truth(alloc: Global, value: bool, at: u64) -> Result<Part, TheoryFault>
    ensures { (table : List HolTy) → Reads (Good (sign_at at (truth_konst value) bool_ty)) table result }
{
    let k = if value { Konst::True } else { Konst::False };
    Ok(constant(alloc, at, k, boolean())?)
}

fn named_const(
    alloc: Global,
    decls: &Decls,
    types: &mut TypeTable,
    at: u64,
    name: &[u8],
) -> Result<Part, TheoryFault>
    ensures read { (table : List HolTy) → AreNoted table decls.now → Reads (const_as at (found name.now decls.now.declared.consts)) table result }
    ensures same { types.new ≡ types.old }
{
    match decls.const_of(name) {
        None => Err(TheoryFault::At {
            at,
            kind: TheoryKind::Unknown,
        }),
        Some((place, ty, number)) => {
            let typed = Numbered {
                ty: copy_ty(ty)?,
                number,
            };
            let term = types.named(alloc, place)?;
            Ok(leaf(at, term, typed))
        }
    }
}

/// A name, which is a bound variable or a constant.
pub(crate) fn named(
    alloc: Global,
    text: &[u8],
    decls: &Decls,
    types: &mut TypeTable,
    word: Word,
    scope: &Scope,
) -> Result<Part, TheoryFault>
    ensures read { (table : List HolTy) → AreNoted table decls.now → AreNumbered table (numbered_types scope.now) → Reads (name_meaning text.now decls.now.declared word (variables scope.now)) table result }
    ensures same { types.new ≡ types.old }
{
    let name = word_at(text, word);
    match find(scope, name)? {
        None => named_const(alloc, decls, types, word.start, name),
        Some((index, ty)) => {
            let term = types.bound(alloc, index)?;
            Ok(leaf(word.start, term, copy_numbered(ty)?))
        }
    }
}

/// `a -> b -> c`, with its number
fn binary(
    alloc: Global,
    types: &mut TypeTable,
    a: &Numbered,
    b: &Numbered,
    c: &Numbered,
) -> Result<Numbered, NoMemory>
    requires a { IsNumbered types.old a.now }
    requires b { IsNumbered types.old b.now }
    requires c { IsNumbered types.old c.now }
    ensures made { IfOk result (λ t. (t.ty ≡ function_ty a.now.ty (function_ty b.now.ty c.now.ty)) × IsNumbered types.new t) }
    ensures keeps { Keeps types.old types.new }
{
    let inner = types.function(alloc, b, c)?;
    types.function(alloc, a, &inner)
}

fn operator(alloc: Global, types: &mut TypeTable, op: Op, at: u64) -> Result<Part, NoMemory>
    ensures made { Makes (sign_at at (operator_konst op) (function_ty bool_ty (function_ty bool_ty bool_ty))) types.new result }
    ensures keeps { Keeps types.old types.new }
{
    let term = types.operator(alloc, op)?;
    let ty = binary(alloc, types, &boolean(), &boolean(), &boolean())?;
    Ok(leaf(at, term, ty))
}

fn equality(
    alloc: Global,
    types: &mut TypeTable,
    side: &Numbered,
    at: u64,
) -> Result<Part, NoMemory>
    requires { IsNumbered types.old side.now }
    ensures made { Makes (sign_at at (Konst.Eq side.now.ty) (function_ty side.now.ty (function_ty side.now.ty bool_ty))) types.new result }
    ensures keeps { Keeps types.old types.new }
{
    let ty = binary(alloc, types, side, side, &boolean())?;
    constant(alloc, at, Konst::Eq(copy_ty(&side.ty)?), ty)
}

fn negation(alloc: Global, types: &mut TypeTable, at: u64) -> Result<Part, NoMemory>
    ensures made { Makes (sign_at at Konst.Not (function_ty bool_ty bool_ty)) types.new result }
    ensures keeps { Keeps types.old types.new }
{
    let term = types.negation(alloc)?;
    let ty = types.function(alloc, &boolean(), &boolean())?;
    Ok(leaf(at, term, ty))
}

fn constant_of(
    alloc: Global,
    types: &mut TypeTable,
    sign: Sign,
    part: &Part,
) -> Result<Part, NoMemory>
    requires { IsNumbered types.old part.now.ty }
    ensures made { Makes (sign_of sign (meaning_of part.now)) types.new result }
    ensures keeps { Keeps types.old types.new }
{
    match sign {
        Sign::Operator(op) => operator(alloc, types, op, part.at),
        Sign::Equality => equality(alloc, types, &part.ty, part.at),
        Sign::Negation(at) => negation(alloc, types, at),
    }
}

/// A sign with its left or only side.
pub(crate) fn signed(
    alloc: Global,
    types: &mut TypeTable,
    sign: Sign,
    part: Part,
) -> Result<Part, TheoryFault>
    requires { IsNumbered types.old part.ty }
    ensures read { Reads (put_sign (sign_of sign) (meaning_of part)) types.new result }
    ensures keeps { Keeps types.old types.new }
{
    let head = constant_of(alloc, &mut *types, sign, &part)?;
    applied(alloc, &*types, head, part)
}

/// The constant of a quantifier over variables of the type `from`; a lambda has none.
fn quantifier(
    alloc: Global,
    types: &mut TypeTable,
    q: Quant,
    at: u64,
    from: &Numbered,
) -> Result<Option<Part>, NoMemory>
    requires { IsNumbered types.old from.now }
    ensures made { IfOk result (λ o. (option_map meaning_of o ≡ quantifier_of q at from.now.ty) × IfSome o (λ p. IsNumbered types.new p.ty)) }
    ensures keeps { Keeps types.old types.new }
{
    match q {
        Quant::Lambda => Ok(None),
        Quant::All => {
            let k = Konst::All(copy_ty(&from.ty)?);
            Ok(Some(quantifier_on(alloc, types, at, k, from, &boolean())?))
        }
        Quant::Ex => {
            let k = Konst::Ex(copy_ty(&from.ty)?);
            Ok(Some(quantifier_on(alloc, types, at, k, from, &boolean())?))
        }
        Quant::Eps => {
            let k = Konst::Eps(copy_ty(&from.ty)?);
            Ok(Some(quantifier_on(alloc, types, at, k, from, from)?))
        }
    }
}

fn quantifier_on(
    alloc: Global,
    types: &mut TypeTable,
    at: u64,
    k: Konst,
    from: &Numbered,
    gives: &Numbered,
) -> Result<Part, NoMemory>
    requires from { IsNumbered types.old from.now }
    requires gives { IsNumbered types.old gives.now }
    ensures made { Makes (sign_at at k (function_ty (function_ty from.now.ty bool_ty) gives.now.ty)) types.new result }
    ensures keeps { Keeps types.old types.new }
{
    let test = types.function(alloc, from, &boolean())?;
    let ty = types.function(alloc, &test, gives)?;
    constant(alloc, at, k, ty)
}

/// A quantifier on a lambda, whose body begins at `body_at`.
fn quantified(
    alloc: Global,
    types: &TypeTable,
    head: Option<Part>,
    is_formula: bool,
    body_at: u64,
    l: Part,
) -> Result<Part, TheoryFault>
    requires head { ForSome head (λ k. IsNumbered types.now k.ty) }
    requires lambda { IsNumbered types.now l.ty }
    ensures { Reads (quantified_by (option_map meaning_of head) is_formula body_at (meaning_of l)) types.now result }
{
    match head {
        None => Ok(l),
        Some(k) => {
            if is_formula {
                applied(alloc, types, k, l)
            } else {
                Err(ill_typed(body_at))
            }
        }
    }
}

fn lambda(alloc: Global, from: Ty, body: Shared<Term>) -> Result<Shared<Term>, NoMemory>
    ensures { IfOk result (λ t. t ≡ lambda_of from body) }
{
    Shared::new(alloc, Term::Lam(from, body))
}

/// The lambda over variables of the type `from`.
fn abstraction(
    alloc: Global,
    types: &mut TypeTable,
    at: u64,
    from: &Numbered,
    body: Part,
) -> Result<Part, TheoryFault>
    requires from { IsNumbered types.old from.now }
    requires body { IsNumbered types.old body.ty }
    ensures read { Reads (made_at at (lambda_of from.now.ty body.term) (function_ty from.now.ty body.ty.ty)) types.new result }
    ensures keeps { Keeps types.old types.new }
{
    let depth = 1 + body.depth;
    let ty = types.function(alloc, from, &body.ty)?;
    let term = lambda(alloc, copy_ty(&from.ty)?, body.term)?;
    made(at, term, ty, depth)
}

/// A binder with its body.
pub(crate) fn bound(
    alloc: Global,
    types: &mut TypeTable,
    q: Quant,
    at: u64,
    from: &Numbered,
    body: Part,
) -> Result<Part, TheoryFault>
    requires from { IsNumbered types.old from.now }
    requires body { IsNumbered types.old body.ty }
    ensures read { Reads (bound_part q at from.now.ty (meaning_of body)) types.new result }
    ensures keeps { Keeps types.old types.new }
{
    let is_formula = is_bool(&body.ty.ty);
    let body_at = body.at;
    match abstraction(alloc, &mut *types, at, from, body) {
        Err(e) => Err(e),
        Ok(l) => match quantifier(alloc, &mut *types, q, at, from) {
            Err(_) => Err(TheoryFault::NoMemory),
            Ok(head) => quantified(alloc, &*types, head, is_formula, body_at, l),
        },
    }
}
