ghost use Rattle.std.specs.Prelude.{◌≡◌, ℕ, List, [], false, IfOk};
ghost use Rattle.std.specs.List.{list_all};
ghost use Rattle.theory_print.specs.Lexemes.{laid};
ghost use Rattle.theory_reader.specs.Declarations.{known};
ghost use Rattle.theory_reader.specs.Seen.{declarations};
ghost use Rattle.theory_reader.specs.Reading.{Reads};
ghost use Rattle.theory_text.specs.Printed.{theory_lexemes, FactsWritten, GoalsWritten, facts_have_text as all_have_text, goal_has_text, sentences_have_text};

use crate::statements::{put_consts, put_statements, put_types};
use std::alloc::Global;
use text_kit::{Bytes, NoMemory};
use theory_print::{Vocabulary, fresh_number, has_text};
use theory_reader::{Fact, Goal, Theory};

fn printed(alloc: Global, theory: &Theory, number: u32) -> Result<Bytes, NoMemory>
    ensures { IfOk result (λ out. FactsWritten number (known (declarations theory.now)) theory.now.facts → GoalsWritten number (known (declarations theory.now)) theory.now.goals → out ≡ laid (theory_lexemes number (declarations theory.now))) }
{
    let names = Vocabulary {
        types: theory.types.as_slice(),
        consts: theory.consts.as_slice(),
        number,
    };
    let mut out = Bytes::begin(alloc);
    put_types(&mut out, &names)?;
    put_consts(&mut out, &names)?;
    put_statements(
        &mut out,
        &names,
        theory.facts.as_slice(),
        theory.goals.as_slice(),
    )?;
    Ok(out)
}

/// Whether some text has each fact's sentence.
fn facts_have_text(facts: &[Fact]) -> bool
    ensures { result ≡ all_have_text facts.now }
{
    facts.iter().all(|f| has_text(&f.formula))
}

/// Whether some text has the sentences of each goal.
fn goals_have_text(goals: &[Goal]) -> bool
    ensures { result ≡ list_all goal_has_text goals.now }
{
    goals.iter().all(|g| has_text(&g.formula) && facts_have_text(g.assumes.as_slice()))
}

/// Whether some text has each sentence of a theory.
fn have_text(theory: &Theory) -> bool
    ensures { result ≡ sentences_have_text (declarations theory.now) }
{
    facts_have_text(theory.facts.as_slice()) && goals_have_text(theory.goals.as_slice())
}

/// A text that is read as this theory, where there is such a text. Where some sentence stands in no text
/// (`theory_print::has_text`), it is the text without bytes.
///
/// The types stand first, then the constants, then the facts and the goals in their order, a declaration a line. Terms
/// have the fewest brackets, and bound variables new names.
pub fn print(alloc: Global, theory: &Theory) -> Result<Bytes, NoMemory>
    ensures text { IfOk result (λ out. (text : List ℕ) → Reads text (declarations theory.now) → Reads out (declarations theory.now)) }
    ensures none { IfOk result (λ out. sentences_have_text (declarations theory.now) ≡ false → out ≡ []) }
{
    let number = fresh_number(alloc, theory.consts.as_slice())?;
    if have_text(theory) {
        printed(alloc, theory, number)
    } else {
        Ok(Bytes::begin(alloc))
    }
}
