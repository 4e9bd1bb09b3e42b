ghost use Rattle.std.specs.Prelude.{◌≡◌, ◌↔◌, IsTrue};
ghost use Rattle.hyp_sets.specs.Order.{is_same};

use hol_terms::Term;

/// The test that tells terms apart in sets and rules is equality.
pub fn is_same_is_equality(s: &Term, t: &Term)
    ensures { IsTrue (is_same s.now t.now) ↔ (s.now ≡ t.now) }
{}
