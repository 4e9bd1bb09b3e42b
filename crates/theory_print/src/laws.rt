ghost use Rattle.theory_print.specs.Laws.{TypesAreReadAgain, SentencesAreReadAgain};

/// What is printed is read as what was printed, within the same limit of levels. It does nothing: its contract is the law.
pub fn read_again()
    ensures types { TypesAreReadAgain }
    ensures sentences { SentencesAreReadAgain }
{}
