ghost use Rattle.std.specs.Prelude.{◌≡◌, ◌∷◌, ◌++◌, [], None, length, OnOk};
ghost use Rattle.theory_terms.specs.Words.{place};
ghost use Rattle.theory_reader.specs.Declaring.{goal_of, type_declared, const_declared, fact_declared, goal_declared, declared, declared_all};
ghost use Rattle.theory_reader.specs.inner.Stages.{so_far, Agrees, Becomes};

use crate::assume::{assumed, fault_at, is_taken, push_fact};
use crate::parts::Parts;
use crate::{Fact, Goal, TheoryFault, TheoryKind};
use hol_terms::Term;
use std::alloc::Global;
use text_kit::{Bytes, NoMemory, Rows};
use theory_syntax::{Hyp, Item, Tree, TyTree, Word};
use theory_terms::{Names, read_sentence, read_type, word_at};

/// The greatest number of facts.
const MAX_FACTS: usize = 20_000;

fn type_item<'t>(parts: &mut Parts<'t>, text: &'t [u8], word: Word) -> Result<(), TheoryFault>
    requires { Agrees parts.old }
    ensures { Becomes (type_declared text.now (so_far parts.old) word) parts.new result }
{
    let name = word_at(text, word);
    if parts.known.base_of(name).is_some() {
        return Err(fault_at(word, TheoryKind::Repeated));
    }
    match parts.known.add_type(name) {
        Ok(()) => Ok(()),
        Err(_) => Err(TheoryFault::NoMemory),
    }
}

fn const_item<'t>(
    alloc: Global,
    parts: &mut Parts<'t>,
    text: &'t [u8],
    word: Word,
    tree: &TyTree,
) -> Result<(), TheoryFault>
    requires { Agrees parts.old }
    ensures { Becomes (const_declared text.now (so_far parts.old) word tree.now) parts.new result }
{
    let name = word_at(text, word);
    if parts.known.has_const(name) {
        return Err(fault_at(word, TheoryKind::Repeated));
    }
    match read_type(alloc, text, &parts.known, tree) {
        Err(e) => Err(e),
        Ok(ty) => match parts.known.add_const(alloc, name, &ty) {
            Ok(()) => Ok(()),
            Err(_) => Err(TheoryFault::NoMemory),
        },
    }
}

fn fact_item<'t>(
    alloc: Global,
    parts: &mut Parts<'t>,
    text: &'t [u8],
    word: Word,
    tree: &Tree,
) -> Result<(), TheoryFault>
    requires { Agrees parts.old }
    ensures { Becomes (fact_declared text.now (so_far parts.old) word tree.now) parts.new result }
{
    let name = word_at(text, word);
    if is_taken(&*parts, name) {
        return Err(fault_at(word, TheoryKind::Repeated));
    }
    if parts.facts.len() >= MAX_FACTS {
        return Err(fault_at(word, TheoryKind::TooMany));
    }
    match read_sentence(alloc, text, &mut parts.known, tree) {
        Err(e) => Err(e),
        Ok(formula) => match push_fact(
            alloc,
            &mut parts.fact_names,
            &mut parts.facts,
            name,
            formula,
        ) {
            Ok(()) => Ok(()),
            Err(_) => Err(TheoryFault::NoMemory),
        },
    }
}

/// Appends a goal that stands behind `before` facts, and its name to the table of names.
fn push_goal<'t>(
    alloc: Global,
    names: &mut Names<'t>,
    goals: &mut Rows<Goal>,
    name: &'t [u8],
    formula: Term,
    before: u32,
    assumes: Rows<Fact>,
) -> Result<(), NoMemory>
    requires { place name.now names.old ≡ None }
    ensures names { OnOk result (names.new ≡ names.old ++ name.now ∷ []) }
    ensures goals { OnOk result (goals.new ≡ goals.old ++ goal_of name.now formula before assumes ∷ []) }
{
    let own = Bytes::from_slice(alloc, name)?;
    goals.push(Goal {
        name: own,
        formula,
        before,
        assumes,
    })?;
    names.add(name)
}

fn goal_item<'t>(
    alloc: Global,
    parts: &mut Parts<'t>,
    text: &'t [u8],
    word: Word,
    tree: &Tree,
    hyps: &[Hyp],
) -> Result<(), TheoryFault>
    requires { Agrees parts.old }
    ensures { Becomes (goal_declared text.now (so_far parts.old) word tree.now hyps.now) parts.new result }
{
    let name = word_at(text, word);
    if is_taken(&*parts, name) {
        return Err(fault_at(word, TheoryKind::Repeated));
    }
    match read_sentence(alloc, text, &mut parts.known, tree) {
        Err(e) => Err(e),
        Ok(formula) => match assumed(alloc, text, &mut *parts, name, hyps) {
            Err(e) => Err(e),
            Ok(assumes) => {
                let before = parts.fact_names.len();
                match push_goal(
                    alloc,
                    &mut parts.goal_names,
                    &mut parts.goals,
                    name,
                    formula,
                    before,
                    assumes,
                ) {
                    Ok(()) => Ok(()),
                    Err(_) => Err(TheoryFault::NoMemory),
                }
            }
        },
    }
}

fn item<'t>(
    alloc: Global,
    parts: &mut Parts<'t>,
    text: &'t [u8],
    item: &Item,
) -> Result<(), TheoryFault>
    requires { Agrees parts.old }
    ensures { Becomes (declared text.now (so_far parts.old) item.now) parts.new result }
{
    match item {
        Item::Type(word) => type_item(parts, text, *word),
        Item::Const(word, tree) => const_item(alloc, parts, text, *word, tree),
        Item::Fact(word, tree) => fact_item(alloc, parts, text, *word, tree),
        Item::Goal(word, tree, hyps) => goal_item(alloc, parts, text, *word, tree, hyps.as_slice()),
    }
}

/// Declares all of these in their order.
pub(crate) fn declare<'t>(
    alloc: Global,
    parts: &mut Parts<'t>,
    text: &'t [u8],
    items: &[Item],
) -> Result<(), TheoryFault>
    requires { Agrees parts.old }
    ensures { Becomes (declared_all text.now (so_far parts.old) items.now) parts.new result }
{
    for d in items {
        match item(alloc, &mut *parts, text, d) {
            Ok(()) => {}
            Err(e) => return Err(e),
        }
    }
    Ok(())
}
