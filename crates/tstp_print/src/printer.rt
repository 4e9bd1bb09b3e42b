ghost use Rattle.std.specs.Prelude.{◌≡◌, ◌++◌, ◌<◌, ◌∷◌, ℕ, Some, slice_get, length, IfOk, OnOk};
ghost use Rattle.std.specs.List.{flat_map, list_any};
ghost use Rattle.fo_infer.specs.declared.refutation.Line.{Line as DerivedLine};
ghost use Rattle.tstp_print.specs.Used.{AreDrawn};
ghost use Rattle.tstp_print.specs.Lines.{is_conjecture, status_text, statement_at, line_at, proof_text, IsProofText};
ghost use Rattle.tstp_print.specs.inner.Marking.{HasSource};

use crate::lines::{put_line, put_statement};
use crate::marking::{Needed, needed_of};
use crate::symbols::symbols_in;
use crate::vocabulary::{Vocabulary, new_numbers};
use fo_infer::Line;
use std::alloc::Global;
use text_kit::{Bytes, NoMemory, Rows};
use tptp_syntax::{Problem, Statement};

/// Whether one of the statements is a conjecture.
fn has_conjecture(statements: &[Statement]) -> bool
    ensures { result ≡ list_any is_conjecture statements.now }
{
    for s in statements {
        if s.conjecture {
            return true;
        }
    }
    false
}

fn put_status(out: &mut Bytes, statements: &[Statement]) -> Result<(), NoMemory>
    ensures { OnOk result (out.new ≡ out.old ++ status_text statements.now) }
{
    if has_conjecture(statements) {
        out.append(b"% SZS status Theorem\n")
    } else {
        out.append(b"% SZS status Unsatisfiable\n")
    }
}

fn put_statement_at(
    out: &mut Bytes,
    words: &Vocabulary,
    problem: &Problem,
    number: u64,
) -> Result<(), NoMemory>
    requires { words.now.names.now ≡ problem.now.names }
    ensures { OnOk result (out.new ≡ out.old ++ statement_at problem.now number) }
{
    match problem.statements.get(number as usize) {
        Some(s) => put_statement(out, words, s),
        None => Ok(()),
    }
}

fn put_line_at(
    out: &mut Bytes,
    words: &Vocabulary,
    problem: &Problem,
    sources: &[u32],
    lines: &[Line],
    number: u64,
) -> Result<(), NoMemory>
    requires { words.now.names.now ≡ problem.now.names }
    ensures { OnOk result (out.new ≡ out.old ++ line_at problem.now sources.now lines.now number) }
{
    match lines.get(number as usize) {
        Some(l) => put_line(
            out,
            words,
            problem.statements.as_slice(),
            sources,
            number,
            l,
        ),
        None => Ok(()),
    }
}

fn put_statements(
    out: &mut Bytes,
    words: &Vocabulary,
    problem: &Problem,
    numbers: &[u64],
) -> Result<(), NoMemory>
    requires { words.now.names.now ≡ problem.now.names }
    ensures { OnOk result (out.new ≡ out.old ++ flat_map (statement_at problem.now) numbers.now) }
{
    for n in numbers {
        put_statement_at(out, words, problem, *n)?;
    }
    Ok(())
}

fn put_lines(
    out: &mut Bytes,
    words: &Vocabulary,
    problem: &Problem,
    sources: &[u32],
    lines: &[Line],
    numbers: &[u64],
) -> Result<(), NoMemory>
    requires { words.now.names.now ≡ problem.now.names }
    ensures { OnOk result (out.new ≡ out.old ++ flat_map (line_at problem.now sources.now lines.now) numbers.now) }
{
    for n in numbers {
        put_line_at(out, words, problem, sources, lines, *n)?;
    }
    Ok(())
}

/// The text of a proof whose needed statements and lines are known.
fn put_proof(
    alloc: Global,
    words: &Vocabulary,
    problem: &Problem,
    sources: &[u32],
    lines: &[Line],
    needed: &Needed,
) -> Result<Bytes, NoMemory>
    requires { words.now.names.now ≡ problem.now.names }
    ensures { IfOk result (λ text. text ≡ proof_text problem.now sources.now lines.now needed.now.statements needed.now.lines) }
{
    let mut out = Bytes::begin(alloc);
    put_status(&mut out, problem.statements.as_slice())?;
    out.append(b"% SZS output start Proof\n")?;
    put_statements(&mut out, words, problem, needed.statements.as_slice())?;
    put_lines(
        &mut out,
        words,
        problem,
        sources,
        lines,
        needed.lines.as_slice(),
    )?;
    out.append(b"% SZS output end Proof\n")?;
    Ok(out)
}

/// The text of a refutation: a line for each statement and each clause that its last line needs, in the order of their numbers.
///
/// `sources` has the statement of each input. The time is linear in the lines and in the text, and logarithmic in the problem's names
/// for each new symbol.
pub fn print_proof(
    alloc: Global,
    problem: &Problem,
    sources: &[u32],
    lines: &[Line],
) -> Result<Bytes, NoMemory>
    requires drawn { AreDrawn lines.now }
    requires sources { (n : ℕ) (l : DerivedLine) → slice_get lines.now n ≡ Some l → HasSource sources.now (length problem.now.statements) l.origin }
    ensures { IfOk result (IsProofText problem.now sources.now lines.now) }
{
    let needed = needed_of(alloc, problem.statements.len(), sources, lines)?;
    let names = problem.names.as_slice();
    let new = symbols_in(lines).saturating_sub(names.len());
    let numbers = new_numbers(alloc, names, new)?;
    let words = Vocabulary {
        names,
        numbers: numbers.as_slice(),
    };
    put_proof(alloc, &words, problem, sources, lines, &needed)
}
