ghost use Rattle.slot_work.specs.Answers.{KeyTells};

use theory_reader::Theory;

/// The answers for the key of a job are those for its theory, goal and budget. It does nothing: its contract is the law.
pub fn key_tells(theory: &Theory, goal: u32, budget: u32)
    ensures { KeyTells theory.now goal budget }
{}
