ghost use Rattle.std.specs.Prelude.{◌≡◌, ◌+◌, ◌<◌, ◌≤◌, ◌↔◌, IsTrue, MatchOption, map, sum};
ghost use Rattle.fo_terms.specs.Substitution.{put};
ghost use Rattle.fo_terms.specs.Weight.{size_of};
ghost use Rattle.fo_unify.specs.Lookup.{term_of};

use fo_terms::FoTerm;
use fo_unify::Bindings;

/// The heaviest instance whose weight is looked for.
const MOST: u64 = 65_535;

/// The heaviest instance that counts as light.
const MOST_LIGHT: u64 = 512;

/// What is left of an allowance behind the weight of a term with the unifier put through it; none where the term weighs more. Nothing is written, and
/// no more is looked at than the allowance lets.
#[cycle(weighing)]
fn left_of<'a>(unifier: &Bindings<'a>, t: &'a FoTerm, allowance: u64) -> Option<u64>
    ensures { MatchOption result (allowance < size_of (put (term_of unifier.now) t.now)) (λ rest. rest + size_of (put (term_of unifier.now) t.now) ≡ allowance) }
{
    match unifier.look(t) {
        FoTerm::Var(_) => allowance.checked_sub(1),
        FoTerm::Fun(_, args) => match allowance.checked_sub(1) {
            None => None,
            Some(rest) => left_of_all(&*unifier, args.as_slice(), rest),
        },
    }
}

#[cycle(weighing)]
fn left_of_all<'a>(unifier: &Bindings<'a>, terms: &'a [FoTerm], allowance: u64) -> Option<u64>
    ensures { MatchOption result (allowance < sum (map size_of (map (put (term_of unifier.now)) terms.now))) (λ rest. rest + sum (map size_of (map (put (term_of unifier.now)) terms.now)) ≡ allowance) }
{
    let mut rest = allowance;
    for t in terms {
        match left_of(&*unifier, t, rest) {
            None => return None,
            Some(less) => rest = less,
        }
    }
    Some(rest)
}

/// Whether the one term with the unifier put through it is known to weigh more than the other, which weighs at most 65,535 then. It takes no
/// memory.
pub fn weighs_more<'a>(unifier: &Bindings<'a>, s: &'a FoTerm, t: &'a FoTerm) -> bool
    ensures heavier { IsTrue result → size_of (put (term_of unifier.now) t.now) < size_of (put (term_of unifier.now) s.now) }
    ensures within { IsTrue result → size_of (put (term_of unifier.now) t.now) ≤ 65535 }
{
    match left_of(&*unifier, t, MOST) {
        None => false,
        Some(rest) => left_of(&*unifier, s, MOST - rest).is_none(),
    }
}

/// Whether the term with the unifier put through it weighs at most 512. It takes no memory.
pub fn is_light<'a>(unifier: &Bindings<'a>, t: &'a FoTerm) -> bool
    ensures { IsTrue result ↔ (size_of (put (term_of unifier.now) t.now) ≤ 512) }
{
    left_of(&*unifier, t, MOST_LIGHT).is_some()
}
