ghost use Rattle.fo_order.specs.KnuthBendix.{Above};
ghost use Rattle.fo_terms.specs.declared.term.FoTerm.{FoTerm};

/// The order is a strict one, which is a law of it alone: the call does nothing.
pub fn order_is_strict()
    ensures irreflexive { (s : FoTerm) → Above s s → ⊥ }
    ensures transitive { (s t u : FoTerm) → Above s t → Above t u → Above s u }
{}
