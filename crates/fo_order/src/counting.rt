ghost use Rattle.std.specs.Prelude.{◌≡◌, ◌↔◌, IsTrue};
ghost use Rattle.fo_terms.specs.Weight.{capped};
ghost use Rattle.fo_order.specs.Counts.{count_of, count_of_all, covered_at, covered_all, Covers};

use fo_terms::FoTerm;

#[cycle(counts)]
fn count(x: u64, t: &FoTerm) -> u64
    ensures { result ≡ capped (count_of x t.now) }
{
    match t {
        FoTerm::Var(y) => if x == *y { 1 } else { 0 },
        FoTerm::Fun(_, args) => count_all(x, args.as_slice()),
    }
}

#[cycle(counts)]
fn count_all(x: u64, ts: &[FoTerm]) -> u64
    ensures { result ≡ capped (count_of_all x ts.now) }
{
    let mut total = 0u64;
    for t in ts {
        total = total.saturating_add(count(x, t));
    }
    total
}

#[cycle(covering)]
fn covered_by(u: &FoTerm, s: &FoTerm, t: &FoTerm) -> bool
    ensures { result ≡ covered_at s.now t.now u.now }
{
    match u {
        FoTerm::Var(x) => count(*x, &*t) <= count(*x, &*s),
        FoTerm::Fun(_, args) => covered_by_all(args.as_slice(), &*s, &*t),
    }
}

#[cycle(covering)]
fn covered_by_all(us: &[FoTerm], s: &FoTerm, t: &FoTerm) -> bool
    ensures { result ≡ covered_all s.now t.now us.now }
{
    for u in us {
        if !covered_by(u, &*s, &*t) {
            return false;
        }
    }
    true
}

/// Whether each variable occurs in `s` at least as often as in `t`.
pub fn covered(s: &FoTerm, t: &FoTerm) -> bool
    ensures { IsTrue result ↔ Covers s.now t.now }
{
    covered_by(&*t, &*s, &*t)
}
