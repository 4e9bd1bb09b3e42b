ghost use Rattle.fo_infer.specs.OneList.{HasOneList, HaveOneList};

use fo_terms::Clause;

/// One clause has one list of inferences. It does nothing: its contract is the law.
pub fn alone_is_one_list(p: &Clause)
    ensures { HasOneList p.now }
{}

/// Two clauses have one list of inferences. It does nothing: its contract is the law.
pub fn between_is_one_list(p: &Clause, q: &Clause)
    ensures { HaveOneList p.now q.now }
{}
