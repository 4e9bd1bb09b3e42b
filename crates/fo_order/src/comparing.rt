ghost use Rattle.std.specs.Prelude.{◌≡◌, ◌↔◌, ◌+◌, ◌<◌, ◌⊎◌, length, slice_get, IsTrue, Some};
ghost use Rattle.fo_terms.specs.declared.term.FoTerm.{FoTerm};
ghost use Rattle.fo_terms.specs.Weight.{size_of, size_of_all, capped};
ghost use Rattle.fo_order.specs.KnuthBendix.{Above, RankOf, RankOfFirst, OrderOf};

use crate::counting::covered;
use fo_terms::{FoTerm, weight_all};

/// How one term stands to another.
#[derive(Clone, Copy, Debug, Drop, PartialEq, Eq)]
pub enum Order {
    /// the first is less than the second
    Less,
    /// they are the same term
    Equal,
    /// the first is greater than the second
    Greater,
    /// they differ, and neither is greater
    Unknown,
}

/// The weight of the term at the place, from that of a term with these arguments.
///
/// The others are weighed in its place, so that a descent weighs each subterm once.
fn weight_at(terms: &[FoTerm], i: usize, whole: u64) -> u64
    requires place { i < length terms.now }
    requires whole { whole ≡ capped (1 + size_of_all terms.now) }
    ensures { (t : FoTerm) → slice_get terms.now i ≡ Some t → result ≡ capped (size_of t) }
{
    if whole == u64::MAX {
        return terms[i].weight();
    }
    whole - 1 - weight_all(&terms[..i]) - weight_all(&terms[i + 1..])
}

/// Compares terms of these weights, before variables are counted.
#[cycle(ranking)]
fn rank(s: &FoTerm, left: u64, t: &FoTerm, right: u64) -> Order
    requires left { left ≡ capped (size_of s.now) }
    requires right { right ≡ capped (size_of t.now) }
    ensures { RankOf s.now t.now result }
{
    if left > right {
        return Order::Greater;
    }
    if left < right {
        return Order::Less;
    }
    match (s, t) {
        (FoTerm::Fun(f, xs), FoTerm::Fun(g, ys)) => {
            if *f > *g {
                return Order::Greater;
            }
            if *f < *g {
                return Order::Less;
            }
            rank_first(xs.as_slice(), left, ys.as_slice(), right)
        }
        (FoTerm::Var(x), FoTerm::Var(y)) => {
            if *x == *y {
                return Order::Equal;
            }
            Order::Unknown
        }
        (FoTerm::Fun(_, _), FoTerm::Var(_)) => Order::Unknown,
        (FoTerm::Var(_), FoTerm::Fun(_, _)) => Order::Unknown,
    }
}

#[cycle(ranking)]
fn rank_first(xs: &[FoTerm], left: u64, ys: &[FoTerm], right: u64) -> Order
    requires left { left ≡ capped (1 + size_of_all xs.now) }
    requires right { right ≡ capped (1 + size_of_all ys.now) }
    ensures { RankOfFirst xs.now ys.now result }
{
    for i in 0..xs.len() {
        if i >= ys.len() {
            return Order::Unknown;
        }
        let x = &xs[i];
        let y = &ys[i];
        if !x.same(y) {
            let heavy = weight_at(&*xs, i, left);
            let light = weight_at(&*ys, i, right);
            return confirmed(rank(x, heavy, y, light), x, y);
        }
    }
    if xs.len() < ys.len() {
        return Order::Unknown;
    }
    Order::Equal
}

fn confirmed(order: Order, s: &FoTerm, t: &FoTerm) -> Order
    requires { RankOf s.now t.now order }
    ensures { OrderOf s.now t.now result }
{
    match order {
        Order::Greater => {
            if covered(s, t) {
                return Order::Greater;
            }
            Order::Unknown
        }
        Order::Less => {
            if covered(t, s) {
                return Order::Less;
            }
            Order::Unknown
        }
        Order::Equal => Order::Equal,
        Order::Unknown => Order::Unknown,
    }
}

/// Compares two terms by the order of Knuth and Bendix. Each symbol and each variable weighs 1, and a symbol of a
/// greater number is later. Weights and counts above `u64::MAX` are taken as that. It takes no memory.
///
/// Variables are counted last, since weights and heads mostly decide. (Donald Knuth and Peter Bendix, "Simple word
/// problems in universal algebras", 1970.)
pub fn kbo(s: &FoTerm, t: &FoTerm) -> Order
    ensures { OrderOf s.now t.now result }
{
    confirmed(rank(s, s.weight(), t, t.weight()), s, t)
}

/// Whether the first term is less than the second by the same order. Variables are counted only where the rest allows it.
pub fn is_less(s: &FoTerm, t: &FoTerm) -> bool
    ensures { IsTrue result ↔ Above t.now s.now }
{
    match rank(s, s.weight(), t, t.weight()) {
        Order::Less => covered(t, s),
        Order::Equal => false,
        Order::Greater => false,
        Order::Unknown => false,
    }
}

/// Whether the first term is less than the second, or the same.
pub fn is_at_most(s: &FoTerm, t: &FoTerm) -> bool
    ensures { IsTrue result ↔ ((s.now ≡ t.now) ⊎ Above t.now s.now) }
{
    match rank(s, s.weight(), t, t.weight()) {
        Order::Less => covered(t, s),
        Order::Equal => true,
        Order::Greater => false,
        Order::Unknown => false,
    }
}
