ghost use Rattle.std.specs.Prelude.{◌≡◌, ◌+◌, ◌-◌, ◌<◌, ◌≤◌, ◌^◌, ℕ, ◌++◌, ◌∷◌, [], All, length, take, slice_get, map, IfOk, OnOk};
ghost use Rattle.std.specs.Option.{option_copied, option_map, option_map_or};
ghost use Rattle.theory_reader.specs.Sound.{seen_from};
ghost use Rattle.mepo_filter.specs.Constants.{names, each_once, occurs_in, no_constant, with_constant};
ghost use Rattle.mepo_filter.specs.Mepo.{candidate, candidates};
ghost use Rattle.mepo_filter.specs.inner.Tables.{is_in, count_in, met_again, all_met};
ghost use Rattle.mepo_filter.specs.inner.Gathers.{gathered_of, IsSound};

use crate::constant_set::ConstantSet;
use crate::counts::Counts;
use crate::naming::put_names;
use crate::placing::Place;
use hol_terms::Term;
use std::alloc::Global;
use text_kit::{NoMemory, Rows};
use theory_reader::{Fact, Goal, Theory};

/// The constants of the facts that may be chosen.
#[derive(Drop)]
pub(crate) struct Gathered {
    /// Those of each fact in turn, each once.
    pub flat: Rows<u32>,
    pub places: Rows<Place>,
    pub counts: Counts,
}

/// The formula of the fact with this number among those that the goal is proved from.
fn formula_of<'t>(facts: &'t [Fact], goal: &'t Goal, number: u32) -> Option<&'t Term>
    requires { goal.now.before ≤ length facts.now }
    ensures { option_copied result ≡ option_map (λ f. f.formula) (slice_get (seen_from facts.now goal.now) number) }
{
    if number < goal.before {
        facts.get(number as usize).map(|f| &f.formula)
    } else {
        goal.assumes
            .as_slice()
            .get((number - goal.before) as usize)
            .map(|f| &f.formula)
    }
}

/// Appends a constant that the fact didn't have yet.
fn put_new(
    constant: u32,
    flat: &mut Rows<u32>,
    met: &mut ConstantSet,
    counts: &mut Counts,
) -> Result<(), NoMemory>
    requires { count_in counts.old constant + 1 < 2 ^ 32 }
    ensures flat { OnOk result (flat.new ≡ flat.old ++ constant ∷ []) }
    ensures met { OnOk result (is_in met.new ≡ with_constant (is_in met.old) constant) }
    ensures counts { OnOk result (count_in counts.new ≡ met_again (count_in counts.old) constant) }
{
    met.insert(constant)?;
    counts.count(constant)?;
    flat.push(constant)
}

/// Appends the distinct ones of a fact's constants.
fn put_distinct(
    names: &[u32],
    flat: &mut Rows<u32>,
    met: &mut ConstantSet,
    counts: &mut Counts,
) -> Result<(), NoMemory>
    requires none { is_in met.old ≡ no_constant }
    requires fits { (c : ℕ) → count_in counts.old c + 1 < 2 ^ 32 }
    ensures flat { OnOk result (flat.new ≡ flat.old ++ each_once names.now) }
    ensures counts { OnOk result (count_in counts.new ≡ all_met (count_in counts.old) (occurs_in (each_once names.now))) }
{
    for constant in names {
        if !met.has(*constant) {
            put_new(*constant, &mut *flat, &mut *met, &mut *counts)?;
        }
    }
    Ok(())
}

/// The names of a fact's constants; none where there is no such fact.
fn put_formula(formula: Option<&Term>, out: &mut Vec<u32>) -> Result<(), NoMemory>
    requires { out.old.items ≡ [] }
    ensures { OnOk result (out.new.items ≡ option_map_or names (option_copied formula.entry) []) }
{
    match formula {
        Some(t) => put_names(t, out),
        None => Ok(()),
    }
}

/// A place in the list of all constants. There is room for as many as 32 bits number.
fn place_of(len: usize) -> Result<u32, NoMemory>
    ensures { IfOk result (λ place. place ≡ len) }
{
    match u32::try_from(len) {
        Ok(place) => Ok(place),
        Err(_) => Err(NoMemory),
    }
}

impl Gathered {
    fn begin(alloc: Global) -> Gathered
        ensures none { gathered_of result ≡ [] }
        ensures sound { IsSound result }
    {
        Gathered {
            flat: Rows::begin(alloc),
            places: Rows::begin(alloc),
            counts: Counts::begin(alloc),
        }
    }

    /// Adds a fact whose formula has these names.
    fn add(&mut self, fact: u32, names: &[u32], met: &mut ConstantSet) -> Result<(), NoMemory>
        requires sound { IsSound self.old }
        requires few { length (gathered_of self.old) + 1 < 2 ^ 32 }
        ensures more { OnOk result (gathered_of self.new ≡ gathered_of self.old ++ record { fact = fact; constants = each_once names.now } ∷ []) }
        ensures sound { OnOk result (IsSound self.new) }
    {
        met.clear();
        let start = place_of(self.flat.len())?;
        put_distinct(names, &mut self.flat, met, &mut self.counts)?;
        let end = place_of(self.flat.len())?;
        self.places.push(Place { fact, start, end })?;
        Ok(())
    }
}

/// Gathers the constants of the visible facts.
fn gather_from(
    alloc: Global,
    facts: &[Fact],
    goal: &Goal,
    visible: &[u32],
) -> Result<Gathered, NoMemory>
    requires behind { goal.now.before ≤ length facts.now }
    requires few { length visible.now < 2 ^ 32 }
    ensures candidates { IfOk result (λ g. gathered_of g ≡ map (candidate (seen_from facts.now goal.now)) visible.now) }
    ensures sound { IfOk result IsSound }
{
    let mut gathered = Gathered::begin(alloc);
    let mut met = ConstantSet::begin(alloc);
    let mut names = Vec::new(alloc);
    for number in visible {
        names.clear();
        put_formula(formula_of(facts, goal, *number), &mut names)?;
        gathered.add(*number, &names, &mut met)?;
    }
    Ok(gathered)
}

/// Gathers the constants of the visible facts for a goal.
pub(crate) fn gather(
    alloc: Global,
    theory: &Theory,
    visible: &[u32],
    goal: u32,
) -> Result<Gathered, NoMemory>
    requires goal { goal < length theory.now.goals }
    requires few { length visible.now < 2 ^ 32 }
    ensures candidates { IfOk result (λ g. gathered_of g ≡ candidates theory.now visible.now goal) }
    ensures sound { IfOk result IsSound }
{
    let stated = theory.goals.at(goal as usize);
    gather_from(alloc, theory.facts.as_slice(), stated, visible)
}
