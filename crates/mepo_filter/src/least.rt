ghost use Rattle.mepo_filter.specs.Least.{TakenIsLeast};

/// For a slice whose mark doesn't rise, the facts taken, before the cut, are the least set that holds every fact whose
/// score against the constants of goal and set reaches the mark.
pub fn taken_is_least()
    ensures { TakenIsLeast }
{}
