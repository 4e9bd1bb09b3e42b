ghost use Rattle.std.specs.Prelude.{◌≡◌, ◌↔◌, IsTrue, map, sum};
ghost use Rattle.fo_terms.specs.Substitution.{put};
ghost use Rattle.fo_terms.specs.Weight.{size_of, capped};
ghost use Rattle.fo_unify.specs.Lookup.{term_of};
ghost use Rattle.fo_order.specs.Counts.{count_of, count_of_all, covered_at, covered_all, Covers};

use fo_terms::FoTerm;
use fo_unify::Bindings;

/// The weight of the term with the unifier put through it.
#[cycle(summing)]
pub fn weight<'a>(unifier: &Bindings<'a>, t: &'a FoTerm) -> u64
    ensures { result ≡ capped (size_of (put (term_of unifier.now) t.now)) }
{
    match unifier.look(t) {
        FoTerm::Var(_) => 1,
        FoTerm::Fun(_, args) => weight_all(&*unifier, args.as_slice()).saturating_add(1),
    }
}

#[cycle(summing)]
fn weight_all<'a>(unifier: &Bindings<'a>, terms: &'a [FoTerm]) -> u64
    ensures { result ≡ capped (sum (map size_of (map (put (term_of unifier.now)) terms.now))) }
{
    let mut total = 0u64;
    for t in terms {
        total = total.saturating_add(weight(&*unifier, t));
    }
    total
}

/// How often the variable stands in the term with the unifier put through it.
#[cycle(counting)]
fn count<'a>(unifier: &Bindings<'a>, x: u64, t: &'a FoTerm) -> u64
    ensures { result ≡ capped (count_of x (put (term_of unifier.now) t.now)) }
{
    match unifier.look(t) {
        FoTerm::Var(y) => if x == *y { 1 } else { 0 },
        FoTerm::Fun(_, args) => count_all(&*unifier, x, args.as_slice()),
    }
}

#[cycle(counting)]
fn count_all<'a>(unifier: &Bindings<'a>, x: u64, terms: &'a [FoTerm]) -> u64
    ensures { result ≡ capped (count_of_all x (map (put (term_of unifier.now)) terms.now)) }
{
    let mut total = 0u64;
    for t in terms {
        total = total.saturating_add(count(&*unifier, x, t));
    }
    total
}

#[cycle(covering)]
fn covered_by<'a>(unifier: &Bindings<'a>, u: &'a FoTerm, s: &'a FoTerm, t: &'a FoTerm) -> bool
    ensures { result ≡ covered_at (put (term_of unifier.now) s.now) (put (term_of unifier.now) t.now) (put (term_of unifier.now) u.now) }
{
    match unifier.look(u) {
        FoTerm::Var(x) => count(&*unifier, *x, t) <= count(&*unifier, *x, s),
        FoTerm::Fun(_, args) => covered_by_all(&*unifier, args.as_slice(), s, t),
    }
}

#[cycle(covering)]
fn covered_by_all<'a>(
    unifier: &Bindings<'a>,
    us: &'a [FoTerm],
    s: &'a FoTerm,
    t: &'a FoTerm,
) -> bool
    ensures { result ≡ covered_all (put (term_of unifier.now) s.now) (put (term_of unifier.now) t.now) (map (put (term_of unifier.now)) us.now) }
{
    for u in us {
        if !covered_by(&*unifier, u, s, t) {
            return false;
        }
    }
    true
}

/// Whether, with the unifier put through both, each variable stands in `s` at least as often as in `t`.
pub fn covered<'a>(unifier: &Bindings<'a>, s: &'a FoTerm, t: &'a FoTerm) -> bool
    ensures { IsTrue result ↔ Covers (put (term_of unifier.now) s.now) (put (term_of unifier.now) t.now) }
{
    covered_by(unifier, t, s, t)
}
