ghost use Rattle.proof_total.specs.Laws.{SomeAnswer};

/// Each text has an answer: it reads as a proof, or has a fault.
pub fn some_answer()
    ensures { SomeAnswer }
{}
