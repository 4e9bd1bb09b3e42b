ghost use Rattle.std.specs.Prelude.{◌≡◌, ◌∷◌, ◌++◌, OnOk, IsTrue};
ghost use Rattle.proof_syntax.specs.Texts.{arg_text, args_text, step_text, steps_text};
ghost use Rattle.proof_syntax.specs.Forms.{form};
ghost use Rattle.proof_text.specs.inner.Fitting.{arg_fits, args_fit, steps_fit};
ghost use Rattle.proof_text.specs.inner.Arguments.{arg_of, args_of, rule_text};
ghost use Rattle.proof_text.specs.inner.Vocabularies.{declared_names};

use crate::names::{Vocabulary, put_fact_name};
use crate::terms::put_term;
use crate::types::put_type;
use hol_terms::{Term, Ty};
use kernel_rules::Step;
use text_kit::{Bytes, NoMemory, put_decimal};

/// What follows the word of a step.
#[derive(Clone, Copy)]
enum Part<'a> {
    Fact(u32),
    /// The number of a theorem or of a variable.
    Number(u64),
    Type(&'a Ty),
    Term(&'a Term),
}

fn put_part(out: &mut Bytes, names: &Vocabulary, part: Part) -> Result<(), NoMemory>
    ensures text { OnOk result (out.new ≡ out.old ++ arg_text (declared_names names.now) (arg_of part.entry)) }
    ensures fits { OnOk result (IsTrue (arg_fits (arg_of part.entry))) }
{
    match part {
        Part::Fact(number) => put_fact_name(out, names, number),
        Part::Number(number) => put_decimal(out, number),
        Part::Type(ty) => put_type(out, names, ty),
        Part::Term(term) => put_term(out, names, term),
    }
}

/// Appends a word, and a space and a part for each.
fn put(out: &mut Bytes, names: &Vocabulary, word: &[u8], parts: &[Part]) -> Result<(), NoMemory>
    ensures text { OnOk result (out.new ≡ out.old ++ (word.now ++ args_text (declared_names names.now) (args_of parts.now))) }
    ensures fits { OnOk result (IsTrue (args_fit (args_of parts.now))) }
{
    out.append(word)?;
    for part in parts {
        out.push(b' ')?;
        put_part(out, names, *part)?;
    }
    Ok(())
}

fn put_rule(out: &mut Bytes, names: &Vocabulary, step: &Step) -> Result<(), NoMemory>
    ensures text { OnOk result (out.new ≡ out.old ++ rule_text (declared_names names.now) step.now) }
    ensures fits { OnOk result (IsTrue (args_fit (form step.now).args)) }
{
    use Part::{Fact, Number, Term, Type};
    match step {
        Step::Fact(n) => put(out, names, b"fact", &[Fact(*n)]),
        Step::Assume(t) => put(out, names, b"assume", &[Term(t)]),
        Step::ImpIntro(t, a) => put(out, names, b"impintro", &[Term(t), Number(a.0)]),
        Step::ImpElim(ab, a) => put(out, names, b"impelim", &[Number(ab.0), Number(a.0)]),
        Step::AndIntro(a, b) => put(out, names, b"andintro", &[Number(a.0), Number(b.0)]),
        Step::AndLeft(ab) => put(out, names, b"andleft", &[Number(ab.0)]),
        Step::AndRight(ab) => put(out, names, b"andright", &[Number(ab.0)]),
        Step::OrLeft(t, a) => put(out, names, b"orleft", &[Term(t), Number(a.0)]),
        Step::OrRight(t, b) => put(out, names, b"orright", &[Term(t), Number(b.0)]),
        Step::OrElim(ab, l, r) => put(
            out,
            names,
            b"orelim",
            &[Number(ab.0), Number(l.0), Number(r.0)],
        ),
        Step::NotIntro(t, a) => put(out, names, b"notintro", &[Term(t), Number(a.0)]),
        Step::NotElim(na, a) => put(out, names, b"notelim", &[Number(na.0), Number(a.0)]),
        Step::TrueIntro => put(out, names, b"trueintro", &[]),
        Step::Classical(t, a) => put(out, names, b"classical", &[Term(t), Number(a.0)]),
        Step::AllIntro(n, ty, a) => put(
            out,
            names,
            b"allintro",
            &[Number(*n), Type(ty), Number(a.0)],
        ),
        Step::AllElim(t, a) => put(out, names, b"allelim", &[Term(t), Number(a.0)]),
        Step::ExIntro(f, t, a) => put(out, names, b"exintro", &[Term(f), Term(t), Number(a.0)]),
        Step::Choose(a) => put(out, names, b"choose", &[Number(a.0)]),
        Step::Refl(t) => put(out, names, b"refl", &[Term(t)]),
        Step::Subst(f, eq, a) => put(out, names, b"subst", &[Term(f), Number(eq.0), Number(a.0)]),
        Step::Beta(t) => put(out, names, b"beta", &[Term(t)]),
        Step::Abs(n, ty, a) => put(out, names, b"abs", &[Number(*n), Type(ty), Number(a.0)]),
        Step::Iff(ab, ba) => put(out, names, b"iff", &[Number(ab.0), Number(ba.0)]),
        Step::Inst(n, ty, t, a) => put(
            out,
            names,
            b"inst",
            &[Number(*n), Type(ty), Term(t), Number(a.0)],
        ),
    }
}

/// Appends a step's line.
fn put_step(out: &mut Bytes, names: &Vocabulary, number: u64, step: &Step) -> Result<(), NoMemory>
    ensures text { OnOk result (out.new ≡ out.old ++ step_text (declared_names names.now) number step.now) }
    ensures fits { OnOk result (IsTrue (args_fit (form step.now).args)) }
{
    put_decimal(out, number)?;
    out.push(b' ')?;
    put_rule(out, names, step)?;
    out.push(b'\n')
}

/// Appends the steps, numbered from 0.
pub(crate) fn put_steps(out: &mut Bytes, names: &Vocabulary, steps: &[Step]) -> Result<(), NoMemory>
    ensures text { OnOk result (out.new ≡ out.old ++ steps_text (declared_names names.now) 0 steps.now) }
    ensures fits { OnOk result (IsTrue (steps_fit steps.now)) }
{
    for (number, step) in steps.iter().enumerate() {
        put_step(out, names, number as u64, step)?;
    }
    Ok(())
}
