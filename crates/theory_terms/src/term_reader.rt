ghost use Rattle.std.specs.Prelude.{◌≡◌, ◌∷◌, map, IfOk, IfErr};
ghost use Rattle.theory_terms.specs.Answers.{Good, Tells, and_then};
ghost use Rattle.theory_terms.specs.Words.{word_at as bytes_of};
ghost use Rattle.theory_terms.specs.Meanings.{meaning, sentence as sentence_of, stated as stated_by, applied as put_to, applied_all, signed as put_sign, bound as bound_by, moved as moved_to};
ghost use Rattle.theory_terms.specs.Numbers.{IsNumbered, AreNumbered, AreNoted, Keeps};
ghost use Rattle.theory_terms.specs.inner.Scopes.{variables, numbered_types};
ghost use Rattle.theory_terms.specs.inner.Parts.{meaning_of, sign_of, Reads};

use crate::decls::Decls;
use crate::making::{Sign, applied, bound, is_bool, named, signed, truth};
use crate::numbered::Numbered;
use crate::part::Part;
use crate::scope::Scope;
use crate::type_reader::declared_type;
use crate::type_table::TypeTable;
use crate::{Known, TheoryFault, TheoryKind, word_at};
use hol_terms::{Term, Ty, copy};
use std::alloc::Global;
use theory_syntax::{Quant, Tree, Word};

/// The same part from another first byte.
fn moved(at: u64, part: Part) -> Part
    ensures meaning { Good (meaning_of result) ≡ moved_to at (meaning_of part) }
    ensures ty { result.ty ≡ part.ty }
{
    let mut part = part;
    part.at = at;
    part
}

/// The type of a variable with its number.
fn number(
    alloc: Global,
    decls: &Decls,
    types: &mut TypeTable,
    ty: &Ty,
    scope: &Scope,
) -> Result<Numbered, TheoryFault>
    requires decls { AreNoted types.old decls.now }
    requires scope { AreNumbered types.old (numbered_types scope.now) }
    ensures made { IfOk result (λ t. (t.ty ≡ ty.now) × IsNumbered types.new t) }
    ensures memory { IfErr result (λ e. e ≡ TheoryFault.NoMemory) }
    ensures keeps { Keeps types.old types.new }
    ensures decls { AreNoted types.new decls.now }
    ensures scope { AreNumbered types.new (numbered_types scope.now) }
{
    Ok(types.number(alloc, ty)?)
}

/// Reads a part under bound variables.
#[cycle(terms)]
fn read(
    alloc: Global,
    text: &[u8],
    decls: &Decls,
    types: &mut TypeTable,
    tree: &Tree,
    scope: &Scope,
) -> Result<Part, TheoryFault>
    requires decls { AreNoted types.old decls.now }
    requires scope { AreNumbered types.old (numbered_types scope.now) }
    ensures read { Reads (meaning text.now decls.now.declared tree.now (variables scope.now)) types.new result }
    ensures keeps { Keeps types.old types.new }
    ensures decls { AreNoted types.new decls.now }
    ensures scope { AreNumbered types.new (numbered_types scope.now) }
{
    match tree {
        Tree::Name(word) => named(alloc, text, decls, types, *word, &*scope),
        Tree::Truth(value, at) => truth(alloc, *value, *at),
        Tree::Round(at, inner) => match read(alloc, text, decls, types, inner.get(), &*scope) {
            Err(e) => Err(e),
            Ok(part) => Ok(moved(*at, part)),
        },
        Tree::Apply(f, xs) => match read(alloc, text, decls, &mut *types, f.get(), &*scope) {
            Err(e) => Err(e),
            Ok(head) => arguments(alloc, text, decls, types, head, xs.as_slice(), &*scope),
        },
        Tree::Equals(a, b) => {
            let sign = Sign::Equality;
            match sided(alloc, text, decls, &mut *types, sign, a.get(), &*scope) {
                Err(e) => Err(e),
                Ok(head) => argument(alloc, text, decls, types, head, b.get(), &*scope),
            }
        }
        Tree::Not(at, a) => {
            sided(
                alloc,
                text,
                decls,
                types,
                Sign::Negation(*at),
                a.get(),
                &*scope,
            )
        }
        Tree::Join(op, a, b) => {
            let sign = Sign::Operator(*op);
            match sided(alloc, text, decls, &mut *types, sign, a.get(), &*scope) {
                Err(e) => Err(e),
                Ok(head) => argument(alloc, text, decls, types, head, b.get(), &*scope),
            }
        }
        Tree::Bind(q, at, x, ty, b) => match declared_type(alloc, text, decls, ty) {
            Err(e) => Err(e),
            Ok(from) => match number(alloc, decls, &mut *types, &from, &*scope) {
                Err(e) => Err(e),
                Ok(from) => binder(
                    alloc,
                    text,
                    decls,
                    types,
                    b.get(),
                    *q,
                    *at,
                    *x,
                    &from,
                    &*scope,
                ),
            },
        },
    }
}

/// Reads the left or only side of a sign, and puts the sign to it.
#[cycle(terms)]
fn sided(
    alloc: Global,
    text: &[u8],
    decls: &Decls,
    types: &mut TypeTable,
    sign: Sign,
    side: &Tree,
    scope: &Scope,
) -> Result<Part, TheoryFault>
    requires decls { AreNoted types.old decls.now }
    requires scope { AreNumbered types.old (numbered_types scope.now) }
    ensures read { Reads (and_then (meaning text.now decls.now.declared side.now (variables scope.now)) (put_sign (sign_of sign))) types.new result }
    ensures keeps { Keeps types.old types.new }
    ensures decls { AreNoted types.new decls.now }
    ensures scope { AreNumbered types.new (numbered_types scope.now) }
{
    match read(alloc, text, decls, &mut *types, side, &*scope) {
        Err(e) => Err(e),
        Ok(part) => signed(alloc, types, sign, part),
    }
}

/// Reads an argument, and puts the head to it.
#[cycle(terms)]
fn argument(
    alloc: Global,
    text: &[u8],
    decls: &Decls,
    types: &mut TypeTable,
    head: Part,
    x: &Tree,
    scope: &Scope,
) -> Result<Part, TheoryFault>
    requires decls { AreNoted types.old decls.now }
    requires scope { AreNumbered types.old (numbered_types scope.now) }
    requires head { IsNumbered types.old head.ty }
    ensures read { Reads (and_then (meaning text.now decls.now.declared x.now (variables scope.now)) (put_to (meaning_of head))) types.new result }
    ensures keeps { Keeps types.old types.new }
    ensures decls { AreNoted types.new decls.now }
    ensures scope { AreNumbered types.new (numbered_types scope.now) }
{
    match read(alloc, text, decls, &mut *types, x, &*scope) {
        Err(e) => Err(e),
        Ok(part) => applied(alloc, &*types, head, part),
    }
}

/// Reads arguments one after another, and puts the head to each.
#[cycle(terms)]
fn arguments(
    alloc: Global,
    text: &[u8],
    decls: &Decls,
    types: &mut TypeTable,
    head: Part,
    xs: &[Tree],
    scope: &Scope,
) -> Result<Part, TheoryFault>
    requires decls { AreNoted types.old decls.now }
    requires scope { AreNumbered types.old (numbered_types scope.now) }
    requires head { IsNumbered types.old head.ty }
    ensures read { Reads (applied_all (Good (meaning_of head)) (map (meaning text.now decls.now.declared) xs.now) (variables scope.now)) types.new result }
    ensures keeps { Keeps types.old types.new }
    ensures decls { AreNoted types.new decls.now }
    ensures scope { AreNumbered types.new (numbered_types scope.now) }
{
    let mut whole = head;
    for x in xs {
        match argument(alloc, text, decls, &mut *types, whole, x, &*scope) {
            Err(e) => return Err(e),
            Ok(more) => whole = more,
        }
    }
    Ok(whole)
}

/// Reads the body of a binder, and makes the term of the whole.
#[cycle(terms)]
fn binder(
    alloc: Global,
    text: &[u8],
    decls: &Decls,
    types: &mut TypeTable,
    body: &Tree,
    q: Quant,
    at: u64,
    x: Word,
    from: &Numbered,
    scope: &Scope,
) -> Result<Part, TheoryFault>
    requires decls { AreNoted types.old decls.now }
    requires scope { AreNumbered types.old (numbered_types scope.now) }
    requires from { IsNumbered types.old from.now }
    ensures read { Reads (and_then (meaning text.now decls.now.declared body.now (record { name = bytes_of text.now x; ty = from.now.ty } ∷ variables scope.now)) (bound_by q at from.now.ty)) types.new result }
    ensures keeps { Keeps types.old types.new }
    ensures decls { AreNoted types.new decls.now }
    ensures scope { AreNumbered types.new (numbered_types scope.now) }
{
    let name = word_at(text, x);
    let inner = Scope::Under(name, &*from, &*scope);
    match read(alloc, text, decls, &mut *types, body, &inner) {
        Err(e) => Err(e),
        Ok(part) => bound(alloc, types, q, at, &*from, part),
    }
}

fn stated(part: Part) -> Result<Term, TheoryFault>
    ensures { Tells (stated_by (meaning_of part)) result }
{
    if is_bool(&part.ty.ty) {
        Ok(copy(part.term.get())?)
    } else {
        Err(TheoryFault::At {
            at: part.at,
            kind: TheoryKind::NotBool,
        })
    }
}

/// The term of a sentence over declarations whose types are numbered.
fn sentence(
    alloc: Global,
    text: &[u8],
    decls: &Decls,
    types: &mut TypeTable,
    tree: &Tree,
) -> Result<Term, TheoryFault>
    requires { AreNoted types.old decls.now }
    ensures read { Tells (sentence_of text.now decls.now.declared tree.now) result }
    ensures keeps { Keeps types.old types.new }
{
    match read(alloc, text, decls, types, tree, &Scope::Outside) {
        Err(e) => Err(e),
        Ok(part) => stated(part),
    }
}

/// The term of a fact, a goal or an assumption, standing alone.
///
/// Parts are read from left to right, a whole after its parts, and the first fault counts. What is declared stays.
pub fn read_sentence(
    alloc: Global,
    text: &[u8],
    known: &mut Known,
    tree: &Tree,
) -> Result<Term, TheoryFault>
    ensures read { Tells (sentence_of text.now known.old tree.now) result }
    ensures known { known.new ≡ known.old }
{
    sentence(alloc, text, &known.decls, &mut known.table, tree)
}
