ghost use Rattle.std.specs.Prelude.{◌≡◌, ◌≤◌, take, length};
ghost use Rattle.std.specs.List.{position};
ghost use Rattle.std.specs.Str.{bytes_eq};
ghost use Rattle.theory_reader.specs.Sound.{seen_from};
ghost use Rattle.theory_reader.specs.Seen.{seen};

use crate::{Fact, Goal, Theory};

fn fact_place(facts: &[Fact], name: &[u8]) -> Option<usize>
    ensures { result ≡ position (λ f. bytes_eq name.now f.name) facts.now }
{
    facts.iter().position(|f| name == f.name.as_slice())
}

fn goal_place(goals: &[Goal], name: &[u8]) -> Option<usize>
    ensures { result ≡ position (λ g. bytes_eq name.now g.name) goals.now }
{
    goals.iter().position(|g| name == g.name.as_slice())
}

fn facts_before(facts: &[Fact], before: u32) -> &[Fact]
    ensures { result.now ≡ take before facts.now }
{
    &facts[..facts.len().min(before as usize)]
}

/// The place of a name among the facts before a goal and its assumptions.
fn seen_place(facts: &[Fact], goal: &Goal, name: &[u8]) -> Option<u32>
    requires facts { length facts.now ≤ 20000 }
    requires assumes { length goal.now.assumes ≤ 64 }
    requires before { goal.now.before ≤ length facts.now }
    ensures { result ≡ position (λ f. bytes_eq name.now f.name) (seen_from facts.now goal.now) }
{
    match fact_place(facts_before(facts, goal.before), name) {
        Some(place) => Some(place as u32),
        None => match fact_place(goal.assumes.as_slice(), name) {
            Some(place) => Some(goal.before + place as u32),
            None => None,
        },
    }
}

impl Theory {
    /// The place of the goal of this name. It takes no memory.
    pub fn goal_named(&self, name: &[u8]) -> Option<u32>
        ensures { result ≡ position (λ g. bytes_eq name.now g.name) self.now.goals }
    {
        match goal_place(self.goals.as_slice(), name) {
            Some(place) => Some(place as u32),
            None => None,
        }
    }

    /// The place of the fact of this name. It takes no memory.
    pub fn fact_named(&self, name: &[u8]) -> Option<u32>
        ensures { result ≡ position (λ f. bytes_eq name.now f.name) self.now.facts }
    {
        match fact_place(self.facts.as_slice(), name) {
            Some(place) => Some(place as u32),
            None => None,
        }
    }

    /// The place of the fact of this name among those that the goal with this number is proved from: the facts before
    /// it, and then its assumptions. It takes no memory.
    pub fn visible_named(&self, goal: u32, name: &[u8]) -> Option<u32>
        ensures { result ≡ position (λ f. bytes_eq name.now f.name) (seen self.now goal) }
    {
        match self.goals.get(goal as usize) {
            None => None,
            Some(stated) => seen_place(self.facts.as_slice(), stated, name),
        }
    }
}
