ghost use Rattle.std.specs.Prelude.{◌≡◌, ◌<◌, ◌≤◌, ◌++◌, IsTrue, All, length, IfOk, OnOk};
ghost use Rattle.hol_terms.specs.Formulas.{is_sentence};
ghost use Rattle.hol_formulas.specs.Formulas.{formula_of};
ghost use Rattle.lambda_lift.specs.Lifting.{lifted};
ghost use Rattle.lambda_lift.specs.Wholes.{whole as whole_of};
ghost use Rattle.theory_reader.specs.Seen.{seen, IsEnvOf};
ghost use Rattle.theory_reader.specs.Sound.{facts_hold_sentences, seen_from};
ghost use Rattle.tptp_print.specs.Pages.{word};
ghost use Rattle.tptp_print.specs.Problems.{role as role_of, statement, fact_statements, fact_at as fact_in, chosen, problem_text as text_of};

use crate::formula::put_formula;
use crate::page::Page;
use hol_formulas::{Formula, read};
use hol_terms::{Env, Sig, Term};
use lambda_lift::{Scope, Table, lift, whole};
use std::alloc::Global;
use text_kit::{Bytes, NoMemory, Rows, Shared};
use theory_reader::{Decl, Fact, Goal, Theory};

/// The statements written so far, and the table of their auxiliary constants.
#[derive(Drop)]
pub struct Draft {
    pub table: Table,
    pub page: Page,
}

/// The facts that a goal is proved from: those before it, and then its assumptions.
#[derive(Clone, Copy)]
struct Seen<'t> {
    before: &'t [Fact],
    assumes: &'t [Fact],
}

/// The formula lifted, with its equations.
fn lifted_whole(
    alloc: Global,
    sig: &Sig,
    table: &mut Table,
    goal: bool,
    formula: &Term,
) -> Result<Shared<Formula>, NoMemory>
    requires { IsTrue (is_sentence sig.now formula.now) }
    ensures formula { IfOk result (λ f. f ≡ formula_of (whole_of goal (lifted sig.now table.old formula.now))) }
    ensures table { OnOk result (table.new ≡ (lifted sig.now table.old formula.now).table) }
{
    let lifted = lift(alloc, sig, table, formula)?;
    let whole = whole(alloc, &lifted, goal)?;
    read(alloc, &whole)
}

fn put_role(page: &mut Page, goal: bool) -> Result<(), NoMemory>
    ensures { OnOk result (page.new ≡ word (role_of goal) page.old) }
{
    if goal {
        page.put(b", conjecture, ")
    } else {
        page.put(b", axiom, ")
    }
}

/// Writes a name in two parts.
fn put_name(page: &mut Page, prefix: &[u8], name: &[u8]) -> Result<(), NoMemory>
    ensures { OnOk result (page.new ≡ word (prefix.now ++ name.now) page.old) }
{
    page.put(prefix)?;
    page.put(name)
}

/// Writes a statement, its name in two parts.
fn put_statement(
    draft: &mut Draft,
    alloc: Global,
    sig: &Sig,
    consts: &[Decl],
    goal: bool,
    prefix: &[u8],
    name: &[u8],
    formula: &Term,
) -> Result<(), NoMemory>
    requires { IsTrue (is_sentence sig.now formula.now) }
    ensures { OnOk result (draft.new ≡ statement sig.now consts.now goal (prefix.now ++ name.now) formula.now draft.old) }
{
    let formula = lifted_whole(alloc, sig, &mut draft.table, goal, formula)?;
    let table = draft.table.entries().as_slice();
    draft.page.put(b"fof(")?;
    put_name(&mut draft.page, prefix, name)?;
    put_role(&mut draft.page, goal)?;
    put_formula(
        &mut draft.page,
        alloc,
        consts,
        table,
        &Scope::Outside,
        formula.get(),
    )?;
    draft.page.put(b").\n")
}

/// The fact of a number.
fn fact_at<'t>(seen: &Seen<'t>, n: u32) -> &'t Fact
    requires { n < length (seen.now.before.now ++ seen.now.assumes.now) }
    ensures { result.now ≡ fact_in (seen.now.before.now ++ seen.now.assumes.now) n }
{
    let place = n as usize;
    if place < seen.before.len() {
        &seen.before[place]
    } else {
        &seen.assumes[place - seen.before.len()]
    }
}

/// Writes the statements of facts.
fn put_facts(
    draft: &mut Draft,
    alloc: Global,
    sig: &Sig,
    consts: &[Decl],
    seen: &Seen,
    numbers: &[u32],
) -> Result<(), NoMemory>
    requires sentences { IsTrue (facts_hold_sentences sig.now (seen.now.before.now ++ seen.now.assumes.now)) }
    requires numbers { All (λ n. n < length (seen.now.before.now ++ seen.now.assumes.now)) numbers.now }
    ensures { OnOk result (draft.new ≡ fact_statements sig.now consts.now (chosen (seen.now.before.now ++ seen.now.assumes.now) numbers.now) draft.old) }
{
    for n in numbers {
        let fact = fact_at(&*seen, *n);
        put_statement(
            draft,
            alloc,
            sig,
            consts,
            false,
            b"f_",
            fact.name.as_slice(),
            &fact.formula,
        )?;
    }
    Ok(())
}

/// The facts beside a goal.
fn beside<'t>(theory: &'t Theory, goal: &'t Goal) -> Seen<'t>
    requires { goal.now.before ≤ length theory.now.facts }
    ensures { result.before.now ++ result.assumes.now ≡ seen_from theory.now.facts goal.now }
{
    Seen {
        before: &theory.facts.as_slice()[..goal.before as usize],
        assumes: goal.assumes.as_slice(),
    }
}

/// The text of a finished draft.
fn finished(draft: Draft) -> Bytes
    ensures { result ≡ draft.page.bytes }
{
    let page = draft.page;
    page.bytes
}

/// The text, over the environment of the goal with this number.
fn written(
    alloc: Global,
    theory: &Theory,
    env: &Env,
    goal: u32,
    numbers: &[u32],
) -> Result<Bytes, NoMemory>
    requires goal { goal < length theory.now.goals }
    requires numbers { All (λ n. n < length (seen theory.now goal)) numbers.now }
    requires env { IsEnvOf theory.now goal env.now }
    ensures { IfOk result (λ out. out ≡ text_of theory.now goal numbers.now) }
{
    let stated = theory.goals.at(goal as usize);
    let seen = beside(theory, stated);
    let consts = theory.consts.as_slice();
    let mut draft = Draft {
        table: Table::begin(alloc),
        page: Page::begin(alloc),
    };
    put_facts(&mut draft, alloc, &env.sig, consts, &seen, numbers)?;
    put_statement(
        &mut draft,
        alloc,
        &env.sig,
        consts,
        true,
        b"goal",
        b"",
        &stated.formula,
    )?;
    Ok(finished(draft))
}

/// The text of a problem: a line for each fact, in the order given, and then one for the goal.
///
/// Facts are numbered as among those that the goal is proved from: the facts before it, and then its assumptions. The
/// formulas are lifted, their auxiliary constants with one table over the whole text, and each term stands below the tag
/// of its type, types being numbered as they are written first. The language is that of TPTP (Sutcliffe, "The TPTP
/// problem library and associated infrastructure"); that a clause can't use a term at a wrong type, since each is tagged
/// with its type, is Hurd's (the tags of his Metis) and Blanchette, Böhme, Popescu and Smallbone's ("Encoding monomorphic
/// and polymorphic types"). It takes time and room in proportion to the lifted formulas, up to the look-ups by hashing.
pub fn problem_text(
    alloc: Global,
    theory: &Theory,
    goal: u32,
    facts: &Rows<u32>,
) -> Result<Bytes, NoMemory>
    requires goal { goal < length theory.now.goals }
    requires facts { All (λ n. n < length (seen theory.now goal)) facts.now }
    ensures { IfOk result (λ out. out ≡ text_of theory.now goal facts.now) }
{
    let env = theory.env(alloc, goal)?;
    written(alloc, theory, &env, goal, facts.as_slice())
}
