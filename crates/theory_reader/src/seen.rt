ghost use Rattle.std.specs.Prelude.{◌≡◌, ◌++◌, ◌<◌, ◌≤◌, IsTrue, length, IfOk, OnOk};
ghost use Rattle.theory_reader.specs.Names.{distinct};
ghost use Rattle.theory_reader.specs.Seen.{seen};
ghost use Rattle.theory_reader.specs.Sound.{fact_names, seen_from};

use crate::{Fact, Goal, Theory};
use std::alloc::Global;
use text_kit::NoMemory;
use theory_terms::Names;

fn add_facts<'t>(names: &mut Names<'t>, facts: &'t [Fact]) -> Result<(), NoMemory>
    requires { IsTrue (distinct (names.old ++ fact_names facts.now)) }
    ensures { OnOk result (names.new ≡ names.old ++ fact_names facts.now) }
{
    for fact in facts {
        names.add(fact.name.as_slice())?;
    }
    Ok(())
}

/// The facts that a goal is proved from: those before it, and then its assumptions.
fn names_beside<'t>(alloc: Global, facts: &'t [Fact], goal: &'t Goal) -> Result<Names<'t>, NoMemory>
    requires differ { IsTrue (distinct (fact_names (seen_from facts.now goal.now))) }
    requires behind { goal.now.before ≤ length facts.now }
    ensures { IfOk result (λ names. names ≡ fact_names (seen_from facts.now goal.now)) }
{
    let mut names = Names::begin(alloc);
    add_facts(&mut names, &facts[..goal.before as usize])?;
    add_facts(&mut names, goal.assumes.as_slice())?;
    Ok(names)
}

impl Theory {
    /// The names of the facts that the goal with this number is proved from, in a table: a name's place is the fact's
    /// among those before the goal, and then its assumptions.
    pub fn seen_names(&self, alloc: Global, goal: u32) -> Result<Names<'_>, NoMemory>
        requires { goal < length self.now.goals }
        ensures { IfOk result (λ names. names ≡ fact_names (seen self.now goal)) }
    {
        names_beside(alloc, self.facts.as_slice(), self.goals.at(goal as usize))
    }
}
