ghost use Rattle.proof_syntax.specs.Reading.{OneAnswer};

/// No text has two answers: two proofs, two places of a fault, or a proof and a fault.
pub fn one_answer()
    ensures { OneAnswer }
{}
