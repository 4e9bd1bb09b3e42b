ghost use Rattle.std.specs.Prelude.{◌≡◌, ◌<◌, ◌++◌, ◌&&◌, ◌^◌, ℕ, List, [], ◌∷◌, false, codes, length, if◌then◌else◌, IfOk, OnOk};
ghost use Rattle.hol_terms.specs.declared.env.Env.{Env};
ghost use Rattle.theory_reader.specs.Seen.{IsEnvOf, seen};
ghost use Rattle.theory_reader.specs.Sound.{fact_names};
ghost use Rattle.goal_search.specs.Fitting.{fits_at};
ghost use Rattle.slot_work.specs.Answers.{used_facts as facts_used};
ghost use Rattle.slot_work.specs.inner.Lookups.{is_named, FindsNames};

use crate::leaves::{is_in, leaf_name, table_of};
use formula_clauses::fits;
use hol_terms::Env;
use std::alloc::Global;
use text_kit::{Bytes, NoMemory, Rows};
use theory_reader::Theory;
use theory_terms::Names;

/// Whether the fact with this number fits.
pub(crate) fn fits_as_fact(alloc: Global, env: &Env, number: usize) -> Result<bool, NoMemory>
    requires { number < length env.now.facts }
    ensures { IfOk result (λ b. b ≡ fits_at env.now number) }
{
    fits(alloc, &env.sig, env.facts.at(number), false)
}

/// Whether the fact of this number and name fits and is one of the leaves.
fn is_used(
    alloc: Global,
    env: &Env,
    leaves: &Names,
    number: usize,
    name: &[u8],
) -> Result<bool, NoMemory>
    requires { number < length env.now.facts }
    ensures { IfOk result (λ b. b ≡ (fits_at env.now number && is_named leaves.now (codes "f_" ++ name.now))) }
{
    let leaf = leaf_name(alloc, name)?;
    if is_in(leaves, leaf.as_slice()) {
        fits_as_fact(alloc, env, number)
    } else {
        Ok(false)
    }
}

/// Appends a number where it is asked for.
pub(crate) fn push_if(out: &mut Rows<u32>, asked: bool, number: u32) -> Result<(), NoMemory>
    ensures { OnOk result (out.new ≡ out.old ++ (if asked then number ∷ [] else [])) }
{
    if asked { out.push(number) } else { Ok(()) }
}

/// The numbers of the facts that fit and are among the leaves.
fn used_among(
    alloc: Global,
    theory: &Theory,
    goal: u32,
    env: &Env,
    names: &[Bytes],
    leaves: &Names,
) -> Result<Rows<u32>, NoMemory>
    requires env { IsEnvOf theory.now goal env.now }
    requires names { names.now ≡ fact_names (seen theory.now goal) }
    ensures { IfOk result (λ used. used ≡ facts_used theory.now goal leaves.now) }
{
    let mut out = Rows::begin(alloc);
    for i in 0..names.len() {
        let used = is_used(alloc, env, leaves, i, names[i].as_slice())?;
        push_if(&mut out, used, i as u32)?;
    }
    Ok(out)
}

/// The facts beside a goal that these leaves name, by their numbers, ascending.
pub fn used_facts(
    alloc: Global,
    theory: &Theory,
    goal: u32,
    env: &Env,
    leaves: &[Bytes],
) -> Result<Rows<u32>, NoMemory>
    requires goal { goal < length theory.now.goals }
    requires env { IsEnvOf theory.now goal env.now }
    ensures { IfOk result (λ used. used ≡ facts_used theory.now goal leaves.now) }
{
    let names = theory.seen_names(alloc, goal)?.copies(alloc)?;
    let table = table_of(alloc, leaves)?;
    used_among(alloc, theory, goal, env, names.as_slice(), &table)
}
