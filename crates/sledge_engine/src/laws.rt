ghost use Rattle.sledge_engine.specs.Laws.{PosedIsNotRefused, StatusTellsFound};

/// A goal that stands in a theory and fits isn't refused, where the shelf tells what it holds and didn't fail. So then `metis`,
/// `filter`, `problem` and `prove` answer for the goal, or that memory ran out. It does nothing: its contract is the law.
pub fn posed_goals_are_not_refused()
    ensures { PosedIsNotRefused }
{
    theory_reader::one_answer();
}

/// `metis` answers 0 only where the search finds the goal from the named facts, and 1 only where it doesn't. It does nothing: its
/// contract is the law.
pub fn status_tells_found()
    ensures { StatusTellsFound }
{}
