ghost use Rattle.std.specs.Prelude.{◌≡◌, ◌++◌, [], slice_get, OnOk};
ghost use Rattle.std.specs.Option.{option_map_or};
ghost use Rattle.tstp_print.specs.Lines.{role_text, stated_text, source_text, statement_text, rule_word as rule_word_of, origin_word as origin_word_of, line_name, statement_name, parents_text, numbered_text, inference_text, line_text};

use crate::clause::put_clause;
use crate::formula::put_formula;
use crate::names::put_name;
use crate::vocabulary::Vocabulary;
use fo_infer::{Line, Origin, Rule};
use text_kit::{Bytes, NoMemory, put_decimal};
use tptp_syntax::Statement;

fn put_role(out: &mut Bytes, conjecture: bool) -> Result<(), NoMemory>
    ensures { OnOk result (out.new ≡ out.old ++ role_text conjecture) }
{
    if conjecture {
        out.append(b"conjecture")
    } else {
        out.append(b"axiom")
    }
}

/// Appends what stands before a statement's formula.
fn put_stated(out: &mut Bytes, s: &Statement) -> Result<(), NoMemory>
    ensures { OnOk result (out.new ≡ out.old ++ stated_text s.now) }
{
    out.append(b"fof(")?;
    put_name(out, s.name.as_slice())?;
    out.append(b", ")?;
    put_role(out, s.conjecture)?;
    out.append(b", ")
}

/// Appends what stands behind it.
fn put_file(out: &mut Bytes, s: &Statement) -> Result<(), NoMemory>
    ensures { OnOk result (out.new ≡ out.old ++ source_text s.now) }
{
    out.append(b", file('stdin', ")?;
    put_name(out, s.name.as_slice())?;
    out.append(b")).\n")?;
    Ok(())
}

/// Appends the line of a statement.
pub fn put_statement(out: &mut Bytes, words: &Vocabulary, s: &Statement) -> Result<(), NoMemory>
    ensures { OnOk result (out.new ≡ out.old ++ statement_text words.now.names.now s.now) }
{
    put_stated(out, s)?;
    put_formula(out, words, &s.formula)?;
    put_file(out, s)
}

fn rule_word(rule: &Rule) -> &'static [u8]
    ensures { result.now ≡ rule_word_of rule.now }
{
    match rule {
        Rule::Resolve { i: _, j: _ } => b"resolve",
        Rule::Para {
            i: _,
            swapped: _,
            j: _,
            path: _,
        } => b"paramodulate",
        Rule::Factor { i: _, j: _ } => b"factor",
        Rule::Reflex { i: _ } => b"reflexivity",
    }
}

fn origin_word(origin: &Origin) -> &'static [u8]
    ensures { result.now ≡ origin_word_of origin.now }
{
    match origin {
        Origin::Input { number: _ } => b"clausify",
        Origin::Alone { of: _, rule } => rule_word(rule),
        Origin::Pair {
            left: _,
            right: _,
            rule,
        } => rule_word(rule),
    }
}

fn put_line_name(out: &mut Bytes, n: u64) -> Result<(), NoMemory>
    ensures { OnOk result (out.new ≡ out.old ++ line_name n) }
{
    out.push(b'c')?;
    put_decimal(out, n)
}

fn put_statement_name(
    out: &mut Bytes,
    statements: &[Statement],
    number: u32,
) -> Result<(), NoMemory>
    ensures { OnOk result (out.new ≡ out.old ++ statement_name statements.now number) }
{
    match statements.get(number as usize) {
        Some(s) => put_name(out, s.name.as_slice()),
        None => Ok(()),
    }
}

fn put_source(
    out: &mut Bytes,
    statements: &[Statement],
    sources: &[u32],
    number: u64,
) -> Result<(), NoMemory>
    ensures { OnOk result (out.new ≡ out.old ++ option_map_or (statement_name statements.now) (slice_get sources.now number) []) }
{
    match sources.get(number as usize) {
        Some(s) => put_statement_name(out, statements, *s),
        None => Ok(()),
    }
}

fn put_parents(
    out: &mut Bytes,
    statements: &[Statement],
    sources: &[u32],
    origin: &Origin,
) -> Result<(), NoMemory>
    ensures { OnOk result (out.new ≡ out.old ++ parents_text statements.now sources.now origin.now) }
{
    match origin {
        Origin::Input { number } => put_source(out, statements, sources, *number),
        Origin::Alone { of, rule: _ } => put_line_name(out, *of),
        Origin::Pair {
            left,
            right,
            rule: _,
        } => {
            put_line_name(out, *left)?;
            out.append(b", ")?;
            put_line_name(out, *right)
        }
    }
}

/// Appends what stands before a clause.
fn put_numbered(out: &mut Bytes, n: u64) -> Result<(), NoMemory>
    ensures { OnOk result (out.new ≡ out.old ++ numbered_text n) }
{
    out.append(b"cnf(")?;
    put_line_name(out, n)?;
    out.append(b", plain, ")
}

/// Appends what stands behind it: how it is inferred, and from what.
fn put_inference(
    out: &mut Bytes,
    statements: &[Statement],
    sources: &[u32],
    origin: &Origin,
) -> Result<(), NoMemory>
    ensures { OnOk result (out.new ≡ out.old ++ inference_text statements.now sources.now origin.now) }
{
    out.append(b", inference(")?;
    out.append(origin_word(origin))?;
    out.append(b", [], [")?;
    put_parents(out, statements, sources, origin)?;
    out.append(b"])).\n")
}

/// Appends the line of a clause.
pub fn put_line(
    out: &mut Bytes,
    words: &Vocabulary,
    statements: &[Statement],
    sources: &[u32],
    n: u64,
    line: &Line,
) -> Result<(), NoMemory>
    ensures { OnOk result (out.new ≡ out.old ++ line_text words.now.names.now statements.now sources.now n line.now) }
{
    put_numbered(out, n)?;
    put_clause(out, words, line.clause.literals.as_slice())?;
    put_inference(out, statements, sources, &line.origin)
}
