ghost use Rattle.metis_core.specs.declared.given.Given.{Given};
ghost use Rattle.goal_search.specs.Found.{OneEnd};

/// A search ends in one way, so what is saturated or spent isn't found. It does nothing: its contract is the law.
pub fn search_ends_once()
    ensures { (given : Given) → OneEnd given }
{}
