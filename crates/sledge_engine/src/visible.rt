ghost use Rattle.std.specs.Prelude.{◌≡◌, ◌<◌, ◌++◌, ◌^◌, ℕ, [], ◌∷◌, false, if◌then◌else◌, length, map, IfOk, OnOk, MatchOption};
ghost use Rattle.formula_clauses.specs.Fits.{fits as fits_as};
ghost use Rattle.theory_reader.specs.declared.theory.Theory.{Theory};
ghost use Rattle.theory_reader.specs.Sound.{fact_names};
ghost use Rattle.sledge_engine.specs.Choice.{is_named, visible_facts as facts_visible, AllVisible, IsFirstHidden};
ghost use Rattle.slot_work.specs.Visible.{places_from};
ghost use Rattle.sledge_engine.specs.inner.Visible.{fits_at, IsSeen};

use crate::choice::push_if;
use formula_clauses::fits;
use hol_terms::Env;
use std::alloc::Global;
use text_kit::{NoMemory, Rows};
use theory_terms::Names;

/// Whether the fact with this number fits.
fn fits_as_fact(alloc: Global, env: &Env, number: usize) -> Result<bool, NoMemory>
    requires { number < length env.now.facts }
    ensures { IfOk result (λ b. b ≡ fits_at env.now number) }
{
    fits(alloc, &env.sig, env.facts.at(number), false)
}

/// The numbers of the facts that fit.
pub(crate) fn visible_facts(alloc: Global, env: &Env) -> Result<Rows<u32>, NoMemory>
    requires { length env.now.facts < 2 ^ 32 }
    ensures { IfOk result (λ out. out ≡ places_from 0 (λ t. fits_as env.now.sig t false) env.now.facts) }
{
    let mut out = Rows::begin(alloc);
    for i in 0..env.facts.len() {
        let small = fits_as_fact(alloc, env, i)?;
        push_if(&mut out, small, i as u32)?;
    }
    Ok(out)
}

/// Whether a name is that of a fact that fits, where these are the names of the facts.
fn is_visible(alloc: Global, names: &Names, env: &Env, name: &[u8]) -> Result<bool, NoMemory>
    requires { length env.now.facts ≡ length names.now }
    ensures { IfOk result (λ b. (t : Theory) (goal : ℕ) → IsSeen t goal env.now names.now → b ≡ is_named (fact_names (facts_visible t goal)) name.now) }
{
    match names.place(name) {
        Some(place) => fits_as_fact(alloc, env, place as usize),
        None => Ok(false),
    }
}

/// The first word that isn't the name of a fact that fits.
pub(crate) fn first_hidden<'w>(
    alloc: Global,
    names: &Names,
    env: &Env,
    words: &[&'w str],
) -> Result<Option<&'w str>, NoMemory>
    requires { length env.now.facts ≡ length names.now }
    ensures { IfOk result (λ o. (t : Theory) (goal : ℕ) → IsSeen t goal env.now names.now → MatchOption o (AllVisible t goal (map (λ w. w.now) words.now)) (λ w. IsFirstHidden t goal (map (λ w. w.now) words.now) w.now)) }
{
    for i in 0..words.len() {
        if !is_visible(alloc, names, env, words[i].as_bytes())? {
            return Ok(Some(words[i]));
        }
    }
    Ok(None)
}
