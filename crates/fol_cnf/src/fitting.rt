ghost use Rattle.std.specs.Prelude.{◌≡◌, nat_le};
ghost use Rattle.std.specs.List.{list_all};
ghost use Rattle.fol_cnf.specs.declared.progress.Progress.{Progress as Numbers};
ghost use Rattle.fol_cnf.specs.Scopes.{Scope};
ghost use Rattle.fol_cnf.specs.Walks.{walked};
ghost use Rattle.fol_cnf.specs.Meetings.{meetings};
ghost use Rattle.fol_cnf.specs.Clausified.{fits as fits_as, statement_fits};

use crate::counting::count;
use fo_terms::FoFormula;
use tptp_syntax::Statement;

/// The most times that a place of a formula is met.
const MOST_MEETINGS: u64 = 1_024;

/// Whether the walk meets no place of the formula more often than so.
fn is_met_at_most(f: &FoFormula, most: u64) -> bool
    ensures { result ≡ nat_le (meetings f.now) most }
{
    match f {
        FoFormula::True => most >= 1,
        FoFormula::False => most >= 1,
        FoFormula::Atom(_) => most >= 1,
        FoFormula::Not(a) => is_met_at_most(a.get(), most),
        FoFormula::And(a, b) => is_met_at_most(a.get(), most) && is_met_at_most(b.get(), most),
        FoFormula::Or(a, b) => is_met_at_most(a.get(), most) && is_met_at_most(b.get(), most),
        FoFormula::Imp(a, b) => is_met_at_most(a.get(), most) && is_met_at_most(b.get(), most),
        FoFormula::Iff(a, b) => {
            is_met_at_most(a.get(), most / 2) && is_met_at_most(b.get(), most / 2)
        }
        FoFormula::Each(_, b) => is_met_at_most(b.get(), most),
        FoFormula::One(_, b) => is_met_at_most(b.get(), most),
    }
}

/// Whether no list of clauses is too long.
fn has_few_clauses(f: &FoFormula, positive: bool) -> bool
    ensures { (v : Scope) (p : Numbers) → (walked f.now positive v p).few ≡ result }
{
    let counts = count(f);
    if positive {
        counts.positive.is_some()
    } else {
        counts.negative.is_some()
    }
}

/// Whether a statement isn't too large. No clause is made.
fn fits(f: &FoFormula, conjecture: bool) -> bool
    ensures { result ≡ fits_as f.now conjecture }
{
    is_met_at_most(f, MOST_MEETINGS) && has_few_clauses(f, !conjecture)
}

/// Whether no statement is too large.
pub fn all_fit(statements: &[Statement]) -> bool
    ensures { result ≡ list_all statement_fits statements.now }
{
    for s in statements {
        if !fits(&s.formula, s.conjecture) {
            return false;
        }
    }
    true
}
