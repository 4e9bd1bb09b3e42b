ghost use Rattle.std.specs.Prelude.{◌≡◌, ◌<◌, ◌++◌, ◌∷◌, [], Some, IsSome, vec_len, vec_capacity};
ghost use Rattle.race_core.specs.Steps.{step_of};

use race_core::{Event, Race};

/// Enters an event that is legal, for which there is room.
pub(crate) fn enter(race: &mut Race, history: &mut Vec<Event>, event: Event)
    requires legal { IsSome (step_of race.old event) }
    requires room { vec_len history.old < vec_capacity history.old }
    ensures race { step_of race.old event ≡ Some race.new }
    ensures history { history.new.items ≡ history.old.items ++ event ∷ [] }
    ensures capacity { vec_capacity history.new ≡ vec_capacity history.old }
{
    race.step(event);
    history.push_reserved(event);
}
