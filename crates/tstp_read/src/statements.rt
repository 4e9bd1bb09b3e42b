ghost use Rattle.std.specs.Prelude.{◌≡◌, false, [], ◌∷◌, if◌then◌else◌, length, take, drop, All, IfOk, IfErr, OnOk, MatchResult};
ghost use Rattle.tstp_read.specs.declared.sources.Parent.TheVariants as parent;
ghost use Rattle.tstp_read.specs.declared.tokens.Kind.TheVariants as kind;
ghost use Rattle.tstp_read.specs.Tokens.{tokens_of, token_of, unescaped, IsWithin};
ghost use Rattle.tstp_read.specs.inner.Machine.{refutes, parents_of, entry_of, to_stage, named, opened, ended, closed, ends_nothing, plain, in_body, finished, entered, step, last_of, begun, is_empty, is_false, is_between, group_around};
ghost use Rattle.tstp_read.specs.inner.Read.{Finishes, StopsAt, IsPlaced};

use crate::sources::{
    Bare, Group, Parent, Part, Shape, empty_group, given_by, is_mark_of, parts_of, put_group,
    put_token,
};
use crate::tokens::{Kind, Token, without_escapes};
use std::alloc::Global;
use std::mem::replace;
use text_kit::{Bytes, NoMemory, Rows};

/// A statement of a proof, as far as its leaves are asked for.
#[derive(Debug, Drop)]
pub struct Entry {
    pub name: Bytes,
    /// Whether its formula, without brackets, is `$false`.
    pub refutes: bool,
    /// What its source gives.
    pub parents: Rows<Parent>,
}

/// What comes next.
#[derive(Clone, Copy, Debug, Drop, PartialEq, Eq)]
pub enum Stage {
    /// A statement's first word.
    Kind,
    Open,
    Name,
    NameComma,
    Role,
    RoleComma,
    /// The formula and the further parts.
    Body,
    Dot,
}

/// A list of statements, as far as it is read.
#[derive(Debug, Drop)]
pub struct Reader {
    pub statements: Rows<Entry>,
    pub stage: Stage,
    /// The name of the statement that is being read.
    pub name: Bytes,
    /// What stands before the brackets that are open in its body.
    pub outer: Rows<Group>,
    /// What stands within the innermost ones.
    pub group: Group,
}

/// Why tokens are no list of statements.
#[derive(Clone, Copy, Debug, Drop, PartialEq, Eq)]
pub enum ReadFault {
    /// No list goes on at this place.
    Stop { at: usize },
    /// Memory ran out.
    NoMemory,
}

/// Brackets that may stand around a new pair in the body of a statement.
const MAX_OUTER: usize = 4095;

fn begin_reader(alloc: Global) -> Reader
    ensures { result ≡ begun }
{
    Reader {
        statements: Rows::begin(alloc),
        stage: Stage::Kind,
        name: Bytes::begin(alloc),
        outer: Rows::begin(alloc),
        group: empty_group(alloc, false),
    }
}

fn is_false_bare(bare: Bare) -> bool
    ensures { result ≡ is_false bare }
{
    bare == Bare::False
}

fn has_no_token(shape: &Shape) -> bool
    ensures { result ≡ is_empty shape.now }
{
    match shape {
        Shape::Empty => true,
        _ => false,
    }
}

fn does_refute(parts: &[Part]) -> bool
    ensures { result ≡ refutes parts.now }
{
    match parts {
        [formula, ..] => is_false_bare(formula.bare),
        [] => false,
    }
}

fn own_leaf(alloc: Global, name: &Bytes) -> Result<Rows<Parent>, NoMemory>
    ensures { IfOk result (λ ps. ps ≡ parent.Leaf name.now ∷ []) }
{
    let mut parents = Rows::begin(alloc);
    parents.push(Parent::Leaf(name.copy(alloc)?))?;
    Ok(parents)
}

fn parents_by(alloc: Global, name: &Bytes, parts: Rows<Part>) -> Result<Rows<Parent>, NoMemory>
    ensures { IfOk result (λ ps. ps ≡ parents_of name.now parts) }
{
    let mut parts = parts.into_vec();
    if parts.len() < 2 {
        own_leaf(alloc, name)
    } else {
        given_by(alloc, parts.swap_remove(1).shape)
    }
}

fn entry_by(alloc: Global, name: Bytes, parts: Rows<Part>) -> Result<Entry, NoMemory>
    ensures { IfOk result (λ e. e ≡ entry_of name parts) }
{
    let refutes = does_refute(parts.as_slice());
    let parents = parents_by(alloc, &name, parts)?;
    Ok(Entry {
        name,
        refutes,
        parents,
    })
}

fn go_to(reader: &mut Reader, fits: bool, stage: Stage) -> bool
    ensures { to_stage fits reader.old stage ≡ (if result then Some reader.new else None) }
{
    if fits {
        reader.stage = stage;
    }
    fits
}

fn take_name(alloc: Global, reader: &mut Reader, kind: Kind, said: &[u8]) -> Result<bool, NoMemory>
    ensures { IfOk result (λ b. named reader.old (record { kind = kind; said = said.now }) ≡ (if b then Some reader.new else None)) }
{
    if kind == Kind::Mark {
        return Ok(false);
    }
    reader.name = Bytes::from_slice(alloc, said)?;
    reader.stage = Stage::NameComma;
    Ok(true)
}

fn enter_body(alloc: Global, reader: &mut Reader)
    ensures { reader.new ≡ entered reader.old }
{
    reader.stage = Stage::Body;
    reader.outer = Rows::begin(alloc);
    reader.group = empty_group(alloc, false);
}

fn take_comma(alloc: Global, reader: &mut Reader, fits: bool) -> bool
    ensures { (if fits then Some (entered reader.old) else None) ≡ (if result then Some reader.new else None) }
{
    if fits {
        enter_body(alloc, reader);
    }
    fits
}

fn open(alloc: Global, reader: &mut Reader, square: bool) -> Result<bool, NoMemory>
    ensures { IfOk result (λ b. opened reader.old square ≡ (if b then Some reader.new else None)) }
{
    if reader.outer.len() >= MAX_OUTER {
        return Ok(false);
    }
    let group = replace(&mut reader.group, empty_group(alloc, square));
    reader.outer.push(group)?;
    Ok(true)
}

fn close_group(alloc: Global, reader: &mut Reader, outer: Group) -> Result<(), NoMemory>
    ensures { OnOk result (reader.new ≡ record reader.old { group = group_around outer reader.old.group }) }
{
    let inner = replace(&mut reader.group, outer);
    put_group(alloc, &mut reader.group, inner)
}

fn end_body(reader: &mut Reader) -> bool
    ensures { ended reader.old None ≡ (if result then Some reader.new else None) }
{
    if has_no_token(&reader.group.part.shape) {
        return false;
    }
    reader.stage = Stage::Dot;
    true
}

fn end_group(alloc: Global, reader: &mut Reader) -> Result<bool, NoMemory>
    ensures { IfOk result (λ b. ended reader.old (last_of reader.old.outer) ≡ (if b then Some reader.new else None)) }
{
    match reader.outer.pop() {
        None => Ok(end_body(reader)),
        Some(outer) => {
            close_group(alloc, reader, outer)?;
            Ok(true)
        }
    }
}

fn close(alloc: Global, reader: &mut Reader, square: bool) -> Result<bool, NoMemory>
    ensures { IfOk result (λ b. closed reader.old square ≡ (if b then Some reader.new else None)) }
{
    if reader.group.square == square {
        end_group(alloc, reader)
    } else {
        Ok(false)
    }
}

fn ends_nothing(reader: &Reader, kind: Kind, said: &[u8]) -> bool
    ensures { result ≡ ends_nothing reader.now (record { kind = kind; said = said.now }) }
{
    is_mark_of(b',', kind, said)
        && reader.outer.len() == 0
        && has_no_token(&reader.group.part.shape)
}

fn take_plain(alloc: Global, reader: &mut Reader, kind: Kind, said: &[u8]) -> Result<bool, NoMemory>
    ensures { IfOk result (λ b. plain reader.old (record { kind = kind; said = said.now }) ≡ (if b then Some reader.new else None)) }
{
    if ends_nothing(reader, kind, said) {
        return Ok(false);
    }
    put_token(alloc, &mut reader.group, kind, said)?;
    Ok(true)
}

fn take_in_body(
    alloc: Global,
    reader: &mut Reader,
    kind: Kind,
    said: &[u8],
) -> Result<bool, NoMemory>
    ensures { IfOk result (λ b. in_body reader.old (record { kind = kind; said = said.now }) ≡ (if b then Some reader.new else None)) }
{
    if is_mark_of(b'(', kind, said) {
        open(alloc, reader, false)
    } else if is_mark_of(b'[', kind, said) {
        open(alloc, reader, true)
    } else if is_mark_of(b')', kind, said) {
        close(alloc, reader, false)
    } else if is_mark_of(b']', kind, said) {
        close(alloc, reader, true)
    } else {
        take_plain(alloc, reader, kind, said)
    }
}

/// Ends a statement, at its dot.
fn finish(alloc: Global, reader: &mut Reader) -> Result<(), NoMemory>
    ensures { OnOk result (reader.new ≡ finished reader.old) }
{
    let group = replace(&mut reader.group, empty_group(alloc, false));
    let name = replace(&mut reader.name, Bytes::begin(alloc));
    let parts = parts_of(group)?;
    let entry = entry_by(alloc, name, parts)?;
    reader.statements.push(entry)?;
    reader.stage = Stage::Kind;
    Ok(())
}

fn take_dot(alloc: Global, reader: &mut Reader, fits: bool) -> Result<bool, NoMemory>
    ensures { IfOk result (λ b. (if fits then Some (finished reader.old) else None) ≡ (if b then Some reader.new else None)) }
{
    if fits {
        finish(alloc, reader)?;
    }
    Ok(fits)
}

/// Takes the next token, and says whether a list of statements goes on with it.
fn take(alloc: Global, reader: &mut Reader, kind: Kind, said: &[u8]) -> Result<bool, NoMemory>
    ensures { IfOk result (λ b. step reader.old (record { kind = kind; said = said.now }) ≡ (if b then Some reader.new else None)) }
{
    match reader.stage {
        Stage::Kind => Ok(go_to(reader, kind == Kind::Word, Stage::Open)),
        Stage::Open => Ok(go_to(reader, is_mark_of(b'(', kind, said), Stage::Name)),
        Stage::Name => take_name(alloc, reader, kind, said),
        Stage::NameComma => Ok(go_to(reader, is_mark_of(b',', kind, said), Stage::Role)),
        Stage::Role => Ok(go_to(reader, kind == Kind::Word, Stage::RoleComma)),
        Stage::RoleComma => Ok(take_comma(alloc, reader, is_mark_of(b',', kind, said))),
        Stage::Body => take_in_body(alloc, reader, kind, said),
        Stage::Dot => take_dot(alloc, reader, is_mark_of(b'.', kind, said)),
    }
}

fn bytes_at(text: &[u8], token: Token) -> &[u8]
    requires { IsWithin (length text.now) token }
    ensures { result.now ≡ take token.len (drop token.at text.now) }
{
    &text[token.at..token.at + token.len]
}

fn take_quoted(alloc: Global, reader: &mut Reader, inner: &[u8]) -> Result<bool, NoMemory>
    ensures { IfOk result (λ b. step reader.old (record { kind = kind.Quoted; said = unescaped false inner.now }) ≡ (if b then Some reader.new else None)) }
{
    if inner.contains(&b'\\') {
        let said = without_escapes(alloc, inner)?;
        take(alloc, reader, Kind::Quoted, said.as_slice())
    } else {
        take(alloc, reader, Kind::Quoted, inner)
    }
}

fn take_token(
    alloc: Global,
    reader: &mut Reader,
    text: &[u8],
    token: Token,
) -> Result<bool, NoMemory>
    requires { IsWithin (length text.now) token }
    ensures { IfOk result (λ b. step reader.old (token_of text.now token) ≡ (if b then Some reader.new else None)) }
{
    let bytes = bytes_at(text, token);
    if token.kind == Kind::Quoted {
        take_quoted(alloc, reader, &bytes[1..bytes.len() - 1])
    } else {
        take(alloc, reader, token.kind, bytes)
    }
}

fn stands_between(stage: Stage) -> bool
    ensures { result ≡ is_between stage }
{
    match stage {
        Stage::Kind => true,
        _ => false,
    }
}

/// Reads tokens of a text as a list of statements.
pub fn read(alloc: Global, text: &[u8], tokens: &[Token]) -> Result<Rows<Entry>, ReadFault>
    requires { All (IsWithin (length text.now)) tokens.now }
    ensures answer { MatchResult result (λ es. Finishes (tokens_of text.now tokens.now) es) (λ e. StopsAt text.now tokens.now e) }
    ensures placed { IfErr result (IsPlaced (length text.now)) }
{
    let mut reader = begin_reader(alloc);
    for token in tokens {
        match take_token(alloc, &mut reader, text, *token) {
            Ok(true) => {}
            Ok(false) => return Err(ReadFault::Stop { at: token.at }),
            Err(NoMemory) => return Err(ReadFault::NoMemory),
        }
    }
    if stands_between(reader.stage) {
        Ok(reader.statements)
    } else {
        Err(ReadFault::Stop { at: text.len() })
    }
}
