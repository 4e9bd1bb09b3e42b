ghost use Rattle.std.specs.Prelude.{◌≡◌, ◌<◌, ◌++◌, [], length, decimal, codes, IfOk};
ghost use Rattle.kernel_rules.specs.Derivations.{Proves};
ghost use Rattle.theory_reader.specs.Sound.{goal_names};
ghost use Rattle.theory_reader.specs.Seen.{IsEnvOf};
ghost use Rattle.proof_syntax.specs.Names.{name_in};
ghost use Rattle.hol_kernel.specs.Checking.{IsLogOf};
ghost use Rattle.sledge_engine.specs.Check.{BytesReply, CheckReply, ProofFileReply, StepsReply};
ghost use Rattle.sledge_engine.specs.Files.{Outside, most_proof_bytes};
ghost use Rattle.sledge_engine.specs.Texts.{around, checked_text};
ghost use Rattle.sledge_engine.specs.Used.{used_names};
ghost use Rattle.sledge_engine.specs.inner.Fetches.{IsFetch, outside};
ghost use Rattle.sledge_engine.specs.inner.Shown.{check_shown};

use crate::fetching::{Fetch, fetch_file};
use crate::opening::{Opened, open_theory, put_long, put_missing};
use crate::seen::seen_facts;
use crate::used::put_used;
use crate::words::CheckLine;
use hol_kernel::{Log, StepFault, checked};
use hol_terms::Env;
use kernel_rules::Step;
use proof_reader::read_proof;
use proof_syntax::{ProofFault, ProofFile};
use race_outside::Shelf;
use std::alloc::Global;
use text_kit::{Bytes, NoMemory, Rows, put_decimal};
use theory_reader::Theory;

/// The greatest number of bytes of a proof file.
const MOST_PROOF_BYTES: u64 = 67_108_864;

/// Puts that a proof file is refused at a byte or a step.
fn put_refused(text: &mut Bytes, before: &[u8], at: u64) -> Result<u8, NoMemory>
    requires { text.old ≡ [] }
    ensures { IfOk result (λ status. (status ≡ 7) × (text.new ≡ around before.now (decimal at) (codes "\n"))) }
{
    text.append(before)?;
    put_decimal(text, at)?;
    text.append(b"\n")?;
    Ok(7)
}

/// The name of the goal with this number.
fn goal_name(theory: &Theory, goal: u32) -> &[u8]
    requires { goal < length theory.now.goals }
    ensures { result.now ≡ name_in (goal_names theory.now.goals) goal }
{
    theory.goals.at(goal as usize).name.as_slice()
}

/// Puts that steps prove a goal.
fn put_checked(
    alloc: Global,
    theory: &Theory,
    goal: u32,
    steps: &[Step],
    text: &mut Bytes,
) -> Result<u8, NoMemory>
    requires goal { goal < length theory.now.goals }
    requires text { text.old ≡ [] }
    ensures { IfOk result (λ status. (status ≡ 0) × (text.new ≡ checked_text (name_in (goal_names theory.now.goals) goal) (used_names theory.now goal steps.now))) }
{
    let facts = seen_facts(alloc, theory, goal)?;
    text.append(b"checked: ")?;
    text.append(goal_name(theory, goal))?;
    text.append(b" from")?;
    put_used(alloc, text, facts.as_slice(), steps)?;
    text.append(b"\n")?;
    Ok(0)
}

/// Answers where each step has a sequent.
fn answer_log(
    alloc: Global,
    theory: &Theory,
    goal: u32,
    log: &Log,
    text: &mut Bytes,
) -> Result<u8, NoMemory>
    requires goal { goal < length theory.now.goals }
    requires text { text.old ≡ [] }
    ensures { IfOk result (λ status. StepsReply theory.now goal log.now.steps log.now.env status text.new) }
{
    if log.proves() {
        put_checked(alloc, theory, goal, log.steps().as_slice(), text)
    } else {
        put_refused(text, b"refused: step ", log.len())
    }
}

/// Answers steps over the environment of their goal.
fn answer_steps(
    alloc: Global,
    theory: &Theory,
    goal: u32,
    steps: Rows<Step>,
    env: &Env,
    text: &mut Bytes,
) -> Result<u8, NoMemory>
    requires goal { goal < length theory.now.goals }
    requires text { text.old ≡ [] }
    ensures { IfOk result (λ status. StepsReply theory.now goal steps env.now status text.new) }
{
    match checked(alloc, env, steps) {
        Ok(log) => answer_log(alloc, theory, goal, &log, text),
        Err(StepFault::Refused { at }) => put_refused(text, b"refused: step ", at),
        Err(StepFault::NoMemory) => Err(NoMemory),
    }
}

/// Answers a proof that was read.
fn answer_file(
    alloc: Global,
    theory: &Theory,
    file: ProofFile,
    text: &mut Bytes,
) -> Result<u8, NoMemory>
    requires goal { file.goal < length theory.now.goals }
    requires text { text.old ≡ [] }
    ensures { IfOk result (λ status. (env : Env) × IsEnvOf theory.now file.goal env × StepsReply theory.now file.goal file.steps env status text.new) }
{
    let env = theory.env(alloc, file.goal)?;
    answer_steps(alloc, theory, file.goal, file.steps, &env, text)
}

/// Answers the bytes of a proof file.
fn answer_bytes(
    alloc: Global,
    theory: &Theory,
    bytes: &[u8],
    text: &mut Bytes,
) -> Result<u8, NoMemory>
    requires { text.old ≡ [] }
    ensures { IfOk result (λ status. BytesReply theory.now bytes.now status text.new) }
{
    match read_proof(alloc, theory, bytes) {
        Ok(file) => answer_file(alloc, theory, file, text),
        Err(ProofFault::At { at }) => put_refused(text, b"refused: byte ", at),
        Err(ProofFault::NoMemory) => Err(NoMemory),
    }
}

/// Answers what was fetched of a proof file.
fn answer_fetched(
    alloc: Global,
    theory: &Theory,
    name: &str,
    fetched: Fetch,
    text: &mut Bytes,
) -> Result<u8, NoMemory>
    requires { text.old ≡ [] }
    ensures { IfOk result (λ status. (o : Outside) → IsFetch o name.now most_proof_bytes fetched → ProofFileReply o theory.now name.now status text.new) }
{
    match fetched {
        Fetch::Whole(bytes) => answer_bytes(alloc, theory, bytes.as_slice(), text),
        Fetch::TooLong => put_long(text, name),
        Fetch::Failed => put_missing(text, name),
    }
}

/// Answers a proof file over a theory: fetches it first.
fn answer_proof_file<H: Shelf>(
    alloc: Global,
    theory: &Theory,
    name: &str,
    shelf: &mut H,
    text: &mut Bytes,
) -> Result<u8, NoMemory>
    requires { text.old ≡ [] }
    ensures { IfOk result (λ status. ProofFileReply (outside (H.held shelf.old) (H.sure shelf.old) (H.faults shelf.old) (H.faults shelf.new)) theory.now name.now status text.new) }
{
    let fetched = fetch_file(alloc, name, MOST_PROOF_BYTES, shelf)?;
    answer_fetched(alloc, theory, name, fetched, text)
}

/// Answers a line of `check`: puts the text and gives the status.
pub(crate) fn answer_check<H: Shelf>(
    alloc: Global,
    line: CheckLine,
    shelf: &mut H,
    text: &mut Bytes,
) -> Result<u8, NoMemory>
    requires { text.old ≡ [] }
    ensures { IfOk result (λ status. CheckReply (outside (H.held shelf.old) (H.sure shelf.old) (H.faults shelf.old) (H.faults shelf.new)) (check_shown line.entry) status text.new) }
{
    match open_theory(alloc, line.theory, shelf, text)? {
        Opened::Read(theory) => answer_proof_file(alloc, &theory, line.proof, shelf, text),
        Opened::Refused(status) => Ok(status),
    }
}
