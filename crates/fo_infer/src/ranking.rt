ghost use Rattle.std.specs.Prelude.{◌≡◌, ◌↔◌, ◌+◌, ◌⊎◌, IsTrue, IfOk, MatchBool, map, sum};
ghost use Rattle.fo_terms.specs.Substitution.{put};
ghost use Rattle.fo_terms.specs.Weight.{size_of, size_of_all, capped};
ghost use Rattle.fo_unify.specs.Lookup.{term_of};
ghost use Rattle.fo_order.specs.KnuthBendix.{Above, RankOf, RankOfFirst, OrderOf};
ghost use Rattle.fo_infer.specs.inner.Places.{NotBelow};

use crate::counting::{covered, weight};
use crate::weighing::{is_light, weighs_more};
use fo_order::{Order, is_at_most};
use fo_terms::FoTerm;
use fo_unify::Bindings;
use std::alloc::Global;
use text_kit::NoMemory;

/// Whether the unifier makes the two terms the same.
#[cycle(agreeing)]
fn same<'a>(unifier: &Bindings<'a>, s: &'a FoTerm, t: &'a FoTerm) -> bool
    ensures { IsTrue result ↔ (put (term_of unifier.now) s.now ≡ put (term_of unifier.now) t.now) }
{
    match (unifier.look(s), unifier.look(t)) {
        (FoTerm::Var(x), FoTerm::Var(y)) => *x == *y,
        (FoTerm::Var(_), FoTerm::Fun(_, _)) => false,
        (FoTerm::Fun(_, _), FoTerm::Var(_)) => false,
        (FoTerm::Fun(f, xs), FoTerm::Fun(g, ys)) => {
            *f == *g && all_same(&*unifier, xs.as_slice(), ys.as_slice())
        }
    }
}

#[cycle(agreeing)]
fn all_same<'a>(unifier: &Bindings<'a>, ss: &'a [FoTerm], ts: &'a [FoTerm]) -> bool
    ensures { IsTrue result ↔ (map (put (term_of unifier.now)) ss.now ≡ map (put (term_of unifier.now)) ts.now) }
{
    if ss.len() != ts.len() {
        return false;
    }
    for i in 0..ss.len() {
        if !same(&*unifier, &ss[i], &ts[i]) {
            return false;
        }
    }
    true
}

/// Compares two terms, which have these weights, with the unifier put through them, before variables are counted.
#[cycle(ranking)]
fn rank<'a>(unifier: &Bindings<'a>, s: &'a FoTerm, left: u64, t: &'a FoTerm, right: u64) -> Order
    requires left { left ≡ capped (size_of (put (term_of unifier.now) s.now)) }
    requires right { right ≡ capped (size_of (put (term_of unifier.now) t.now)) }
    ensures { RankOf (put (term_of unifier.now) s.now) (put (term_of unifier.now) t.now) result }
{
    if left > right {
        return Order::Greater;
    }
    if left < right {
        return Order::Less;
    }
    match (unifier.look(s), unifier.look(t)) {
        (FoTerm::Fun(f, xs), FoTerm::Fun(g, ys)) => {
            if *f > *g {
                return Order::Greater;
            }
            if *f < *g {
                return Order::Less;
            }
            rank_first(&*unifier, xs.as_slice(), ys.as_slice())
        }
        (FoTerm::Var(x), FoTerm::Var(y)) => {
            if *x == *y {
                return Order::Equal;
            }
            Order::Unknown
        }
        (FoTerm::Fun(_, _), FoTerm::Var(_)) => Order::Unknown,
        (FoTerm::Var(_), FoTerm::Fun(_, _)) => Order::Unknown,
    }
}

#[cycle(ranking)]
fn rank_first<'a>(unifier: &Bindings<'a>, xs: &'a [FoTerm], ys: &'a [FoTerm]) -> Order
    ensures { RankOfFirst (map (put (term_of unifier.now)) xs.now) (map (put (term_of unifier.now)) ys.now) result }
{
    for i in 0..xs.len() {
        if i >= ys.len() {
            return Order::Unknown;
        }
        let x = &xs[i];
        let y = &ys[i];
        if !same(&*unifier, x, y) {
            let left = weight(&*unifier, x);
            let right = weight(&*unifier, y);
            let order = rank(&*unifier, x, left, y, right);
            return confirmed(order, &*unifier, x, y);
        }
    }
    if xs.len() < ys.len() {
        return Order::Unknown;
    }
    Order::Equal
}

fn confirmed<'a>(order: Order, unifier: &Bindings<'a>, s: &'a FoTerm, t: &'a FoTerm) -> Order
    requires { RankOf (put (term_of unifier.now) s.now) (put (term_of unifier.now) t.now) order }
    ensures { OrderOf (put (term_of unifier.now) s.now) (put (term_of unifier.now) t.now) result }
{
    match order {
        Order::Greater => {
            if covered(unifier, s, t) {
                return Order::Greater;
            }
            Order::Unknown
        }
        Order::Less => {
            if covered(unifier, t, s) {
                return Order::Less;
            }
            Order::Unknown
        }
        Order::Equal => Order::Equal,
        Order::Unknown => Order::Unknown,
    }
}

/// Whether the one term is less than the other, or the same, with the unifier put through both. It takes no memory.
fn is_at_most_by<'a>(unifier: &Bindings<'a>, s: &'a FoTerm, t: &'a FoTerm) -> bool
    ensures { IsTrue result ↔ ((put (term_of unifier.now) s.now ≡ put (term_of unifier.now) t.now) ⊎ Above (put (term_of unifier.now) t.now) (put (term_of unifier.now) s.now)) }
{
    match rank(unifier, s, weight(unifier, s), t, weight(unifier, t)) {
        Order::Less => covered(unifier, t, s),
        Order::Equal => true,
        Order::Greater => false,
        Order::Unknown => false,
    }
}

/// The same, with both terms written out where weights don't tell.
fn is_at_most_written<'a>(
    alloc: Global,
    unifier: &Bindings<'a>,
    s: &'a FoTerm,
    t: &'a FoTerm,
) -> Result<bool, NoMemory>
    ensures { IfOk result (λ b. IsTrue b ↔ ((put (term_of unifier.now) s.now ≡ put (term_of unifier.now) t.now) ⊎ Above (put (term_of unifier.now) t.now) (put (term_of unifier.now) s.now))) }
{
    if weighs_more(unifier, s, t) {
        return Ok(false);
    }
    let left = unifier.apply(alloc, s)?;
    let right = unifier.apply(alloc, t)?;
    Ok(is_at_most(&left, &right))
}

/// Whether the one term isn't less than or equal to the other under the unifier.
///
/// Terms that weigh at most 512 under it are compared over its bindings, and nothing is written. Heavier ones are written
/// out, as a walk over the bindings would look at what they share again and again.
pub fn not_below<'a>(
    alloc: Global,
    unifier: &Bindings<'a>,
    s: &'a FoTerm,
    t: &'a FoTerm,
) -> Result<bool, NoMemory>
    ensures { IfOk result (λ b. MatchBool b (NotBelow unifier.now s.now t.now) (NotBelow unifier.now s.now t.now → ⊥)) }
{
    if is_light(unifier, s) && is_light(unifier, t) {
        return Ok(!is_at_most_by(unifier, s, t));
    }
    let at_most = is_at_most_written(alloc, unifier, s, t)?;
    Ok(!at_most)
}
