ghost use Rattle.metis_core.specs.declared.given.Given.{Given};
ghost use Rattle.metis_core.specs.Ends.{OneState, OneEnd};

/// A search is one definite function of what it is given, which is a law of its definition alone: the call does nothing.
pub fn search_is_definite()
    ensures state { (given : Given) → OneState given }
    ensures end { (given : Given) → OneEnd given }
{}
