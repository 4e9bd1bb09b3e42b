ghost use Rattle.std.specs.Prelude.{◌≡◌, ◌++◌, ◌∷◌, ◌≤◌, [], nat_le, take, drop, length, OnOk};
ghost use Rattle.std.specs.List.{prefix_len};
ghost use Rattle.theory_print.specs.Lexemes.{Name, Colon, Semi, laid, spelling, behind as after};
ghost use Rattle.theory_print.specs.Printing.{declared_in};
ghost use Rattle.theory_text.specs.inner.Headings.{opening};
ghost use Rattle.theory_text.specs.Printed.{type_item, type_items, const_item, const_items, fact_item, assumption_items, goal_item, goal_items, statements, IsWritten, FactsWritten, GoalsWritten, shown};

use hol_terms::Term;
use text_kit::{Bytes, NoMemory};
use theory_print::{Vocabulary, put_sentence, put_type};
use theory_reader::{Decl, Fact, Goal};

/// What is declared with a name and a colon.
#[derive(Clone, Copy, Drop)]
enum Heading {
    Const,
    Fact,
    Goal,
    Assume,
}

fn put_word(out: &mut Bytes, heading: Heading) -> Result<(), NoMemory>
    ensures { OnOk result (out.new ≡ out.old ++ (spelling (opening heading) ++ after (opening heading) ∷ [])) }
{
    match heading {
        Heading::Const => out.append(b"const "),
        Heading::Fact => out.append(b"fact "),
        Heading::Goal => out.append(b"goal "),
        Heading::Assume => out.append(b"assume "),
    }
}

/// The word, the name and the colon of a declaration.
fn put_heading(out: &mut Bytes, heading: Heading, name: &[u8]) -> Result<(), NoMemory>
    ensures { OnOk result (out.new ≡ out.old ++ laid (opening heading ∷ Name name.now ∷ Colon ∷ [])) }
{
    put_word(out, heading)?;
    out.append(name)?;
    out.append(b" : ")
}

fn put_end(out: &mut Bytes) -> Result<(), NoMemory>
    ensures { OnOk result (out.new ≡ out.old ++ laid (Semi ∷ [])) }
{
    out.append(b";\n")
}

fn put_type_item(out: &mut Bytes, names: &Vocabulary, name: &[u8]) -> Result<(), NoMemory>
    ensures { OnOk result (out.new ≡ out.old ++ laid (type_item names.now.number (declared_in names.now) name.now)) }
{
    out.append(b"type ")?;
    out.append(name)?;
    out.append(b" ;\n")
}

/// The declarations of the types.
pub(crate) fn put_types(out: &mut Bytes, names: &Vocabulary) -> Result<(), NoMemory>
    ensures { OnOk result (out.new ≡ out.old ++ laid (type_items names.now.number (declared_in names.now) names.now.types.now)) }
{
    for name in names.types {
        put_type_item(out, names, name.as_slice())?;
    }
    Ok(())
}

fn put_const(out: &mut Bytes, names: &Vocabulary, c: &Decl) -> Result<(), NoMemory>
    ensures { OnOk result (out.new ≡ out.old ++ laid (const_item names.now.number (declared_in names.now) c.now)) }
{
    put_heading(out, Heading::Const, c.name.as_slice())?;
    put_type(out, names.types, &c.ty)?;
    put_end(out)?;
    Ok(())
}

/// The declarations of the constants.
pub(crate) fn put_consts(out: &mut Bytes, names: &Vocabulary) -> Result<(), NoMemory>
    ensures { OnOk result (out.new ≡ out.old ++ laid (const_items names.now.number (declared_in names.now) names.now.consts.now)) }
{
    for c in names.consts {
        put_const(out, names, c)?;
    }
    Ok(())
}

/// A heading and a sentence.
fn put_stated(
    out: &mut Bytes,
    names: &Vocabulary,
    heading: Heading,
    name: &[u8],
    t: &Term,
) -> Result<(), NoMemory>
    ensures { OnOk result (IsWritten names.now.number (declared_in names.now) t.now → out.new ≡ out.old ++ laid (opening heading ∷ Name name.now ∷ Colon ∷ shown names.now.number (declared_in names.now) t.now)) }
{
    put_heading(out, heading, name)?;
    put_sentence(out, names, t)?;
    Ok(())
}

fn put_fact(out: &mut Bytes, names: &Vocabulary, fact: &Fact) -> Result<(), NoMemory>
    ensures { OnOk result (IsWritten names.now.number (declared_in names.now) fact.now.formula → out.new ≡ out.old ++ laid (fact_item names.now.number (declared_in names.now) fact.now)) }
{
    put_stated(
        out,
        names,
        Heading::Fact,
        fact.name.as_slice(),
        &fact.formula,
    )?;
    put_end(out)?;
    Ok(())
}

fn put_assumptions(out: &mut Bytes, names: &Vocabulary, facts: &[Fact]) -> Result<(), NoMemory>
    ensures { OnOk result (FactsWritten names.now.number (declared_in names.now) facts.now → out.new ≡ out.old ++ laid (assumption_items names.now.number (declared_in names.now) facts.now)) }
{
    for f in facts {
        put_stated(out, names, Heading::Assume, f.name.as_slice(), &f.formula)?;
    }
    Ok(())
}

fn put_goal(out: &mut Bytes, names: &Vocabulary, goal: &Goal) -> Result<(), NoMemory>
    ensures { OnOk result (IsWritten names.now.number (declared_in names.now) goal.now.formula → FactsWritten names.now.number (declared_in names.now) goal.now.assumes → out.new ≡ out.old ++ laid (goal_item names.now.number (declared_in names.now) goal.now)) }
{
    put_stated(
        out,
        names,
        Heading::Goal,
        goal.name.as_slice(),
        &goal.formula,
    )?;
    put_assumptions(out, names, goal.assumes.as_slice())?;
    put_end(out)?;
    Ok(())
}

fn put_goals(out: &mut Bytes, names: &Vocabulary, goals: &[Goal]) -> Result<(), NoMemory>
    ensures { OnOk result (GoalsWritten names.now.number (declared_in names.now) goals.now → out.new ≡ out.old ++ laid (goal_items names.now.number (declared_in names.now) goals.now)) }
{
    for g in goals {
        put_goal(out, names, g)?;
    }
    Ok(())
}

/// The number of goals in front that stand before the fact at a place.
fn count_before(place: usize, goals: &[Goal]) -> usize
    ensures value { result ≡ prefix_len (λ g. nat_le g.before place) goals.now }
    ensures within { result ≤ length goals.now }
{
    goals
        .iter()
        .take_while(|g| g.before as usize <= place)
        .count()
}

/// The goals that stand before the fact at a place, and the others.
fn parted(place: usize, goals: &[Goal]) -> (&[Goal], &[Goal])
    ensures front { result.0.now ≡ take (prefix_len (λ g. nat_le g.before place) goals.now) goals.now }
    ensures back { result.1.now ≡ drop (prefix_len (λ g. nat_le g.before place) goals.now) goals.now }
{
    goals.split_at(count_before(place, goals))
}

/// The facts, each behind the goals that stand before it, and then the other goals.
pub(crate) fn put_statements(
    out: &mut Bytes,
    names: &Vocabulary,
    facts: &[Fact],
    goals: &[Goal],
) -> Result<(), NoMemory>
    ensures { OnOk result (FactsWritten names.now.number (declared_in names.now) facts.now → GoalsWritten names.now.number (declared_in names.now) goals.now → out.new ≡ out.old ++ laid (statements names.now.number (declared_in names.now) 0 facts.now goals.now)) }
{
    let mut rest = goals;
    for (place, fact) in facts.iter().enumerate() {
        let (front, back) = parted(place, rest);
        put_goals(out, names, front)?;
        put_fact(out, names, fact)?;
        rest = back;
    }
    put_goals(out, names, rest)
}
