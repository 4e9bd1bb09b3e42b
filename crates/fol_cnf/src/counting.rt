ghost use Rattle.std.specs.Prelude.{◌≡◌};
ghost use Rattle.fol_cnf.specs.Walks.{walked};
ghost use Rattle.fol_cnf.specs.inner.Counts.{CountedBoth, sum_of, product_of, flipped_of, and_of, or_of, iff_of};

use fo_terms::FoFormula;

/// The most clauses that a list may have.
const MOST: u64 = 1_024;

/// The numbers of clauses of a formula with each sign; none where a list on the way has too many.
#[derive(Clone, Copy, Drop)]
pub struct Counts {
    pub positive: Option<u64>,
    pub negative: Option<u64>,
}

fn sum(left: Option<u64>, right: Option<u64>) -> Option<u64>
    ensures { result ≡ sum_of left right }
{
    let total = left?.checked_add(right?)?;
    if total <= MOST { Some(total) } else { None }
}

fn product(left: Option<u64>, right: Option<u64>) -> Option<u64>
    ensures { result ≡ product_of left right }
{
    let total = left?.checked_mul(right?)?;
    if total <= MOST { Some(total) } else { None }
}

/// The numbers for the negation.
fn flipped(a: Counts) -> Counts
    ensures { result ≡ flipped_of a }
{
    Counts {
        positive: a.negative,
        negative: a.positive,
    }
}

fn conjunction(a: Counts, b: Counts) -> Counts
    ensures { result ≡ and_of a b }
{
    Counts {
        positive: sum(a.positive, b.positive),
        negative: product(a.negative, b.negative),
    }
}

fn disjunction(a: Counts, b: Counts) -> Counts
    ensures { result ≡ or_of a b }
{
    Counts {
        positive: product(a.positive, b.positive),
        negative: sum(a.negative, b.negative),
    }
}

fn equivalence(a: Counts, b: Counts) -> Counts
    ensures { result ≡ iff_of a b }
{
    Counts {
        positive: sum(
            product(a.negative, b.positive),
            product(a.positive, b.negative),
        ),
        negative: sum(
            product(a.positive, b.positive),
            product(a.negative, b.negative),
        ),
    }
}

/// The numbers of clauses, both signs in one walk. No clause is made.
pub fn count(f: &FoFormula) -> Counts
    ensures { CountedBoth (walked f.now) result }
{
    match f {
        FoFormula::True => Counts {
            positive: Some(0),
            negative: Some(1),
        },
        FoFormula::False => Counts {
            positive: Some(1),
            negative: Some(0),
        },
        FoFormula::Atom(_) => Counts {
            positive: Some(1),
            negative: Some(1),
        },
        FoFormula::Not(a) => flipped(count(a.get())),
        FoFormula::And(a, b) => conjunction(count(a.get()), count(b.get())),
        FoFormula::Or(a, b) => disjunction(count(a.get()), count(b.get())),
        FoFormula::Imp(a, b) => disjunction(flipped(count(a.get())), count(b.get())),
        FoFormula::Iff(a, b) => equivalence(count(a.get()), count(b.get())),
        FoFormula::Each(_, b) => count(b.get()),
        FoFormula::One(_, b) => count(b.get()),
    }
}
