ghost use Rattle.proof_text.specs.Laws.{OneText};

/// What is read as a proof is the text that is printed of it, behind the lines that are passed over. It does nothing:
/// its contract is the law.
pub fn one_text()
    ensures { OneText }
{}
