ghost use Rattle.std.specs.Prelude.{◌≡◌, [], ◌∷◌, ◌++◌, None, OnOk};
ghost use Rattle.theory_terms.specs.Words.{place};
ghost use Rattle.theory_terms.specs.Answers.{Tells};
ghost use Rattle.theory_reader.specs.Sound.{fact_names};
ghost use Rattle.theory_reader.specs.Declaring.{is_stated, fact_of, assumption, assumptions};
ghost use Rattle.theory_reader.specs.inner.Stages.{so_far, Agrees, Assumes};

use crate::parts::Parts;
use crate::{Fact, TheoryFault, TheoryKind};
use hol_terms::Term;
use std::alloc::Global;
use text_kit::{Bytes, NoMemory, Rows};
use theory_syntax::{Hyp, Word};
use theory_terms::{Names, read_sentence, word_at};

/// The greatest number of assumptions of a goal.
const MAX_ASSUMES: usize = 64;

/// The fault of this kind at a declared name.
pub(crate) fn fault_at(word: Word, kind: TheoryKind) -> TheoryFault
    ensures { result ≡ TheoryFault.At word.start kind }
{
    TheoryFault::At {
        at: word.start,
        kind,
    }
}

/// Whether a fact or a goal so far has the name.
pub(crate) fn is_taken(parts: &Parts, name: &[u8]) -> bool
    requires { Agrees parts.now }
    ensures { result ≡ is_stated (so_far parts.now) name.now }
{
    parts.fact_names.place(name).is_some() || parts.goal_names.place(name).is_some()
}

/// Appends a fact, and its name to the table of names.
pub(crate) fn push_fact<'t>(
    alloc: Global,
    names: &mut Names<'t>,
    facts: &mut Rows<Fact>,
    name: &'t [u8],
    formula: Term,
) -> Result<(), NoMemory>
    requires { place name.now names.old ≡ None }
    ensures names { OnOk result (names.new ≡ names.old ++ name.now ∷ []) }
    ensures facts { OnOk result (facts.new ≡ facts.old ++ fact_of name.now formula ∷ []) }
{
    let own = Bytes::from_slice(alloc, name)?;
    facts.push(Fact { name: own, formula })?;
    names.add(name)
}

/// One assumption more of the goal `goal`, whose earlier ones are `assumes`, with their names in `names`.
fn push_assumption<'t>(
    alloc: Global,
    text: &'t [u8],
    parts: &mut Parts,
    goal: &[u8],
    names: &mut Names<'t>,
    assumes: &mut Rows<Fact>,
    hyp: &Hyp,
) -> Result<(), TheoryFault>
    requires agrees { Agrees parts.old }
    requires names { names.old ≡ fact_names assumes.old }
    ensures assumes { Assumes (assumption text.now (so_far parts.old) goal.now assumes.old hyp.now) names.new assumes.new result }
    ensures parts { parts.new ≡ parts.old }
{
    let name = word_at(text, hyp.name);
    if is_taken(&*parts, name) || name == goal || names.place(name).is_some() {
        return Err(fault_at(hyp.name, TheoryKind::Repeated));
    }
    if assumes.len() >= MAX_ASSUMES {
        return Err(fault_at(hyp.name, TheoryKind::TooMany));
    }
    match read_sentence(alloc, text, &mut parts.known, &hyp.tree) {
        Err(e) => Err(e),
        Ok(formula) => match push_fact(alloc, names, assumes, name, formula) {
            Ok(()) => Ok(()),
            Err(_) => Err(TheoryFault::NoMemory),
        },
    }
}

/// The assumptions of the goal `goal`.
pub(crate) fn assumed(
    alloc: Global,
    text: &[u8],
    parts: &mut Parts,
    goal: &[u8],
    hyps: &[Hyp],
) -> Result<Rows<Fact>, TheoryFault>
    requires { Agrees parts.old }
    ensures assumes { Tells (assumptions text.now (so_far parts.old) goal.now [] hyps.now) result }
    ensures parts { parts.new ≡ parts.old }
{
    let mut names = Names::begin(alloc);
    let mut assumes = Rows::begin(alloc);
    for hyp in hyps {
        match push_assumption(
            alloc,
            text,
            &mut *parts,
            goal,
            &mut names,
            &mut assumes,
            hyp,
        ) {
            Ok(()) => {}
            Err(e) => return Err(e),
        }
    }
    Ok(assumes)
}
