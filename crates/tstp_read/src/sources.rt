ghost use Rattle.std.specs.Prelude.{◌≡◌, ◌∷◌, ◌++◌, [], IfOk, OnOk};
ghost use Rattle.tstp_read.specs.Tokens.{Tok};
ghost use Rattle.tstp_read.specs.Statements.{is_mark};
ghost use Rattle.tstp_read.specs.declared.sources.Shape.TheVariants as shape_is;
ghost use Rattle.tstp_read.specs.inner.Machine.{given, one_token, shape_with_token, shape_then, joined, all_given, leaf_of, of_file, members_of, of_inference, of_call, shape_around, bare_of, bare_then, bare_within, no_part, fresh, all_parts, part_then, part_around, group_then, group_around};

use crate::tokens::Kind;
use std::alloc::Global;
use std::mem::replace;
use text_kit::{Bytes, NoMemory, Rows};

/// What a source gives.
#[derive(Debug, Drop)]
pub enum Parent {
    /// The statements of this name.
    Reference(Bytes),
    /// A fact of the problem.
    Leaf(Bytes),
}

/// What a part has been read as so far.
#[derive(Debug, Drop)]
pub enum Shape {
    /// No token.
    Empty,
    /// One name.
    Name(Bytes),
    /// A list, and what its members give.
    Members(Rows<Parent>),
    /// A `file` or an `inference`, and what it gives.
    Given(Rows<Parent>),
    /// A member of a list with its colon, and what stands before that gives.
    Behind(Rows<Parent>),
    /// Anything else.
    Other,
}

/// What is left of a part without its brackets.
#[derive(Clone, Copy, Debug, Drop, PartialEq, Eq)]
pub enum Bare {
    Nothing,
    /// The word `$false` alone.
    False,
    Other,
}

/// The tokens between two commas, as far as they are read.
#[derive(Debug, Drop)]
pub struct Part {
    pub shape: Shape,
    pub bare: Bare,
}

/// What stands within a pair of brackets, as far as it is read.
#[derive(Debug, Drop)]
pub struct Group {
    /// Whether the brackets are `[ ]`.
    pub square: bool,
    /// The parts that a comma has ended.
    pub done: Rows<Part>,
    /// The part behind the last comma.
    pub part: Part,
}

const FILE: &[u8] = b"file";

const INFERENCE: &[u8] = b"inference";

const FALSE: &[u8] = b"$false";

/// Whether a token is the mark of this byte.
pub fn is_mark_of(byte: u8, kind: Kind, said: &[u8]) -> bool
    ensures { result ≡ is_mark byte (record { kind = kind; said = said.now }) }
{
    kind == Kind::Mark && said == [byte].as_slice()
}

/// A part without tokens.
pub fn empty_part() -> Part
    ensures { result ≡ no_part }
{
    Part {
        shape: Shape::Empty,
        bare: Bare::Nothing,
    }
}

/// What stands within a pair of brackets that has just been opened.
pub fn empty_group(alloc: Global, square: bool) -> Group
    ensures { result ≡ fresh square }
{
    Group {
        square,
        done: Rows::begin(alloc),
        part: empty_part(),
    }
}

fn only(alloc: Global, parent: Parent) -> Result<Rows<Parent>, NoMemory>
    ensures { IfOk result (λ ps. ps ≡ parent ∷ []) }
{
    let mut parents = Rows::begin(alloc);
    parents.push(parent)?;
    Ok(parents)
}

/// What a part of this shape gives.
pub fn given_by(alloc: Global, shape: Shape) -> Result<Rows<Parent>, NoMemory>
    ensures { IfOk result (λ ps. ps ≡ given shape) }
{
    match shape {
        Shape::Name(name) => only(alloc, Parent::Reference(name)),
        Shape::Members(parents) => Ok(parents),
        Shape::Given(parents) => Ok(parents),
        Shape::Behind(parents) => Ok(parents),
        Shape::Empty => Ok(Rows::begin(alloc)),
        Shape::Other => Ok(Rows::begin(alloc)),
    }
}

fn shape_of_token(alloc: Global, kind: Kind, said: &[u8]) -> Result<Shape, NoMemory>
    ensures { IfOk result (λ s. s ≡ one_token (record { kind = kind; said = said.now })) }
{
    if kind == Kind::Mark {
        Ok(Shape::Other)
    } else {
        Ok(Shape::Name(Bytes::from_slice(alloc, said)?))
    }
}

fn cut_at_colon(alloc: Global, shape: Shape) -> Result<Shape, NoMemory>
    ensures { IfOk result (λ s. s ≡ shape_is.Behind (given shape)) }
{
    Ok(Shape::Behind(given_by(alloc, shape)?))
}

fn with_token(alloc: Global, shape: Shape, kind: Kind, said: &[u8]) -> Result<Shape, NoMemory>
    ensures { IfOk result (λ s. s ≡ shape_with_token shape (record { kind = kind; said = said.now })) }
{
    match shape {
        Shape::Behind(parents) => Ok(Shape::Behind(parents)),
        Shape::Empty => shape_of_token(alloc, kind, said),
        _ => Ok(Shape::Other),
    }
}

fn shape_with(
    alloc: Global,
    square: bool,
    shape: Shape,
    kind: Kind,
    said: &[u8],
) -> Result<Shape, NoMemory>
    ensures { IfOk result (λ s. s ≡ shape_then square shape (record { kind = kind; said = said.now })) }
{
    if square && is_mark_of(b':', kind, said) {
        cut_at_colon(alloc, shape)
    } else {
        with_token(alloc, shape, kind, said)
    }
}

fn appended(first: Rows<Parent>, second: Rows<Parent>) -> Result<Rows<Parent>, NoMemory>
    ensures { IfOk result (λ ps. ps ≡ first ++ second) }
{
    let mut all = first.into_vec();
    let mut more = second.into_vec();
    match all.append(&mut more) {
        Ok(()) => Ok(Rows::from_vec(all)),
        Err(_) => Err(NoMemory),
    }
}

/// Both lists, the longer one first, so that a parent moves only to lists at least twice as long.
pub fn join(first: Rows<Parent>, second: Rows<Parent>) -> Result<Rows<Parent>, NoMemory>
    ensures { IfOk result (λ ps. ps ≡ joined first second) }
{
    if first.len() < second.len() {
        appended(second, first)
    } else {
        appended(first, second)
    }
}

fn given_by_all(alloc: Global, parts: Rows<Part>) -> Result<Rows<Parent>, NoMemory>
    ensures { IfOk result (λ ps. ps ≡ all_given parts) }
{
    let mut rest = parts;
    let mut all = Rows::begin(alloc);
    'parts: while let Some(part) = rest.pop() {
        let parents = given_by(alloc, part.shape)?;
        all = join(all, parents)?;
    }
    Ok(all)
}

fn leaf_named(alloc: Global, shape: &Shape) -> Result<Shape, NoMemory>
    ensures { IfOk result (λ s. s ≡ leaf_of shape.now) }
{
    match shape {
        Shape::Name(name) => {
            let name = name.copy(alloc)?;
            Ok(Shape::Given(only(alloc, Parent::Leaf(name))?))
        }
        _ => Ok(Shape::Other),
    }
}

fn file_of(alloc: Global, parts: &[Part]) -> Result<Shape, NoMemory>
    ensures { IfOk result (λ s. s ≡ of_file parts.now) }
{
    match parts {
        [_, second, ..] => leaf_named(alloc, &second.shape),
        _ => Ok(Shape::Other),
    }
}

fn given_members(shape: Shape) -> Shape
    ensures { result ≡ members_of shape }
{
    match shape {
        Shape::Members(parents) => Shape::Given(parents),
        _ => Shape::Other,
    }
}

fn inference_of(parts: Rows<Part>) -> Shape
    ensures { result ≡ of_inference parts }
{
    let mut parts = parts;
    if parts.len() != 3 {
        return Shape::Other;
    }
    match parts.pop() {
        Some(part) => given_members(part.shape),
        None => Shape::Other,
    }
}

fn call_of(alloc: Global, name: &[u8], parts: Rows<Part>) -> Result<Shape, NoMemory>
    ensures { IfOk result (λ s. s ≡ of_call name.now parts) }
{
    if name == FILE {
        file_of(alloc, parts.as_slice())
    } else if name == INFERENCE {
        Ok(inference_of(parts))
    } else {
        Ok(Shape::Other)
    }
}

fn list_of(alloc: Global, parts: Rows<Part>) -> Result<Shape, NoMemory>
    ensures { IfOk result (λ s. s ≡ shape_is.Members (all_given parts)) }
{
    Ok(Shape::Members(given_by_all(alloc, parts)?))
}

fn shape_with_group(
    alloc: Global,
    square: bool,
    shape: Shape,
    inner: Rows<Part>,
) -> Result<Shape, NoMemory>
    ensures { IfOk result (λ s. s ≡ shape_around square shape inner) }
{
    match shape {
        Shape::Behind(parents) => Ok(Shape::Behind(parents)),
        Shape::Empty if square => list_of(alloc, inner),
        Shape::Name(name) if !square => call_of(alloc, name.as_slice(), inner),
        _ => Ok(Shape::Other),
    }
}

fn bare_token(kind: Kind, said: &[u8]) -> Bare
    ensures { result ≡ bare_of (record { kind = kind; said = said.now }) }
{
    if kind == Kind::Word && said == FALSE {
        Bare::False
    } else {
        Bare::Other
    }
}

fn bare_both(first: Bare, second: Bare) -> Bare
    ensures { result ≡ bare_then first second }
{
    match (first, second) {
        (Bare::Nothing, other) => other,
        (other, Bare::Nothing) => other,
        _ => Bare::Other,
    }
}

fn bare_of_parts(parts: &[Part]) -> Bare
    ensures { result ≡ bare_within parts.now }
{
    match parts {
        [part] => part.bare,
        _ => Bare::Other,
    }
}

fn part_with(
    alloc: Global,
    square: bool,
    part: Part,
    kind: Kind,
    said: &[u8],
) -> Result<Part, NoMemory>
    ensures { IfOk result (λ p. p ≡ part_then square part (record { kind = kind; said = said.now })) }
{
    let bare = bare_both(part.bare, bare_token(kind, said));
    let shape = shape_with(alloc, square, part.shape, kind, said)?;
    Ok(Part { shape, bare })
}

fn part_with_group(
    alloc: Global,
    square: bool,
    part: Part,
    inner: Rows<Part>,
) -> Result<Part, NoMemory>
    ensures { IfOk result (λ p. p ≡ part_around square part inner) }
{
    let bare = bare_both(part.bare, bare_of_parts(inner.as_slice()));
    let shape = shape_with_group(alloc, square, part.shape, inner)?;
    Ok(Part { shape, bare })
}

/// Ends the part that is being read, at a comma.
pub fn end_part(group: &mut Group) -> Result<(), NoMemory>
    ensures { OnOk result (group.new ≡ record { square = group.old.square; done = all_parts group.old; part = no_part }) }
{
    let part = replace(&mut group.part, empty_part());
    group.done.push(part)
}

/// Puts a token that is no bracket behind the others.
pub fn put_token(alloc: Global, group: &mut Group, kind: Kind, said: &[u8]) -> Result<(), NoMemory>
    ensures { OnOk result (group.new ≡ group_then group.old (record { kind = kind; said = said.now })) }
{
    if is_mark_of(b',', kind, said) {
        return end_part(group);
    }
    let part = replace(&mut group.part, empty_part());
    group.part = part_with(alloc, group.square, part, kind, said)?;
    Ok(())
}

/// Puts a pair of brackets, with what stands within, behind the others.
pub fn put_group(alloc: Global, group: &mut Group, inner: Group) -> Result<(), NoMemory>
    ensures { OnOk result (group.new ≡ group_around group.old inner) }
{
    let square = inner.square;
    let parts = parts_of(inner)?;
    let part = replace(&mut group.part, empty_part());
    group.part = part_with_group(alloc, square, part, parts)?;
    Ok(())
}

/// All parts, with the last one.
pub fn parts_of(group: Group) -> Result<Rows<Part>, NoMemory>
    ensures { IfOk result (λ ps. ps ≡ all_parts group) }
{
    let mut parts = group.done;
    parts.push(group.part)?;
    Ok(parts)
}
