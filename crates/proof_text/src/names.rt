ghost use Rattle.std.specs.Prelude.{◌≡◌, ◌≤◌, ◌++◌, length, OnOk};
ghost use Rattle.theory_reader.specs.Sound.{fact_names};
ghost use Rattle.proof_syntax.specs.Names.{name_in};
ghost use Rattle.proof_text.specs.inner.Vocabularies.{declared_names, names_beside};

use text_kit::{Bytes, NoMemory};
use theory_reader::{Decl, Fact, Goal, Theory};

/// The names that a proof text gives to the numbers of types, constants and facts.
#[derive(Clone, Copy)]
pub(crate) struct Vocabulary<'a> {
    /// The base types behind `bool`.
    pub types: &'a [Bytes],
    pub consts: &'a [Decl],
    /// The facts before the goal, which are numbered first.
    pub facts: &'a [Fact],
    /// The goal's assumptions.
    pub assumes: &'a [Fact],
}

/// The names beside a goal.
pub(crate) fn names_of<'a>(theory: &'a Theory, stated: &'a Goal) -> Vocabulary<'a>
    requires { stated.now.before ≤ length theory.now.facts }
    ensures { declared_names result ≡ names_beside theory.now stated.now }
{
    let facts = theory.facts.as_slice();
    Vocabulary {
        types: theory.types.as_slice(),
        consts: theory.consts.as_slice(),
        facts: &facts[..stated.before as usize],
        assumes: stated.assumes.as_slice(),
    }
}

/// Appends the name of a base type.
pub(crate) fn put_type_name(
    out: &mut Bytes,
    names: &Vocabulary,
    number: u32,
) -> Result<(), NoMemory>
    ensures { OnOk result (out.new ≡ out.old ++ name_in (declared_names names.now).types number) }
{
    if number == 0 {
        return out.append(b"bool");
    }
    match names.types.get((number - 1) as usize) {
        None => Ok(()),
        Some(name) => out.append(name.as_slice()),
    }
}

/// Appends the name of a constant.
pub(crate) fn put_const_name(
    out: &mut Bytes,
    names: &Vocabulary,
    number: u32,
) -> Result<(), NoMemory>
    ensures { OnOk result (out.new ≡ out.old ++ name_in (declared_names names.now).consts number) }
{
    match names.consts.get(number as usize) {
        None => Ok(()),
        Some(decl) => out.append(decl.name.as_slice()),
    }
}

fn put_name_at(out: &mut Bytes, facts: &[Fact], place: usize) -> Result<(), NoMemory>
    ensures { OnOk result (out.new ≡ out.old ++ name_in (fact_names facts.now) place) }
{
    match facts.get(place) {
        None => Ok(()),
        Some(fact) => out.append(fact.name.as_slice()),
    }
}

/// Appends the name of a fact that the goal is proved from.
pub(crate) fn put_fact_name(
    out: &mut Bytes,
    names: &Vocabulary,
    number: u32,
) -> Result<(), NoMemory>
    ensures { OnOk result (out.new ≡ out.old ++ name_in (declared_names names.now).facts number) }
{
    let place = number as usize;
    let before = names.facts.len();
    if place < before {
        put_name_at(out, names.facts, place)
    } else {
        put_name_at(out, names.assumes, place - before)
    }
}
