ghost use Rattle.hol_refutations.specs.Laws.{PartLands, PartsLand, BothLand, EitherLands, DenialLands};

use hol_terms::Term;
use hyp_sets::Hyps;

/// What `not_not`, `and_left`, `and_right`, `not_or_left`, `not_or_right`, `all_at`, `not_some_at`, `some_chosen`, `some_named`,
/// `not_all_chosen` and `not_all_named` give are refutations of the whole.
pub fn part_lands(part: &Term, whole: &Term, hyps: &Hyps)
    ensures { PartLands part.now whole.now hyps.now }
{}

/// What `or_both`, `implies`, `equal_first` and `equal_second` give are refutations of the whole.
pub fn parts_land(first: &Term, second: &Term, whole: &Term, left: &Hyps, right: &Hyps)
    ensures { PartsLand first.now second.now whole.now left.now right.now }
{}

/// What `not_and` gives is a refutation of the whole.
pub fn both_land(first: &Term, second: &Term, whole: &Term, left: &Hyps, right: &Hyps)
    ensures { BothLand first.now second.now whole.now left.now right.now }
{}

/// What `not_implies` gives, `first` being `a` and `second` `~b`, is a refutation of the whole from a refutation of either.
pub fn either_lands(first: &Term, second: &Term, whole: &Term, hyps: &Hyps)
    ensures { EitherLands first.now second.now whole.now hyps.now }
{}

/// What `not_equal` gives, `a` being the one side, `b` the other, and `not_a` and `not_b` their negations, is a refutation of
/// the whole: the left theorem is one of `a` or of `~b`, the right one of `b` or of `~a`.
pub fn denial_lands(
    a: &Term,
    not_a: &Term,
    b: &Term,
    not_b: &Term,
    whole: &Term,
    left: &Hyps,
    right: &Hyps,
)
    ensures { DenialLands a.now not_b.now b.now not_a.now whole.now left.now right.now }
{}
