ghost use Rattle.std.specs.Prelude.{◌≡◌};
ghost use Rattle.formula_clauses.specs.Walks.{walked};
ghost use Rattle.formula_clauses.specs.inner.Counts.{CountedBoth, sum_of, product_of, counts_of};

use hol_formulas::{Formula, Junction};

/// The most clauses that a list may have.
const MOST: u64 = 64;

/// The numbers of clauses of a formula with each sign; none where a list on the way has too many.
#[derive(Clone, Copy, Drop)]
pub struct Counts {
    pub positive: Option<u64>,
    pub negative: Option<u64>,
}

fn sum(left: Option<u64>, right: Option<u64>) -> Option<u64>
    ensures { result ≡ sum_of left right }
{
    let total = left?.checked_add(right?)?;
    if total <= MOST { Some(total) } else { None }
}

fn product(left: Option<u64>, right: Option<u64>) -> Option<u64>
    ensures { result ≡ product_of left right }
{
    let total = left?.checked_mul(right?)?;
    if total <= MOST { Some(total) } else { None }
}

fn of_junction(junction: Junction, a: Counts, b: Counts) -> Counts
    ensures { result ≡ counts_of junction a b }
{
    match junction {
        Junction::And => Counts {
            positive: sum(a.positive, b.positive),
            negative: product(a.negative, b.negative),
        },
        Junction::Or => Counts {
            positive: product(a.positive, b.positive),
            negative: sum(a.negative, b.negative),
        },
        Junction::Imp => Counts {
            positive: product(a.negative, b.positive),
            negative: sum(a.positive, b.negative),
        },
        Junction::Iff => Counts {
            positive: sum(
                product(a.negative, b.positive),
                product(a.positive, b.negative),
            ),
            negative: sum(
                product(a.positive, b.positive),
                product(a.negative, b.negative),
            ),
        },
    }
}

/// The numbers of clauses, both signs in one walk. No clause is made.
pub fn count(f: &Formula) -> Counts
    ensures { CountedBoth (walked f.now) result }
{
    match f {
        Formula::True => Counts {
            positive: Some(0),
            negative: Some(1),
        },
        Formula::False => Counts {
            positive: Some(1),
            negative: Some(0),
        },
        Formula::Atom(_) => Counts {
            positive: Some(1),
            negative: Some(1),
        },
        Formula::Not(a) => {
            let inner = count(a.get());
            Counts {
                positive: inner.negative,
                negative: inner.positive,
            }
        }
        Formula::Two(junction, a, b) => of_junction(*junction, count(a.get()), count(b.get())),
        Formula::Quantified(_, _, _, b) => count(b.get()),
    }
}
