ghost use Rattle.std.specs.Prelude.{◌≡◌, nat_le};
ghost use Rattle.lambda_lift.specs.Tables.{expand as expanded, expanded_konst};
ghost use Rattle.formula_clauses.specs.Sizes.{nodes, meetings};
ghost use Rattle.formula_clauses.specs.inner.Takes.{Takes};

use hol_formulas::{Formula, Junction};
use hol_terms::{Konst, Term};
use lambda_lift::Table;

/// What is left of a number of nodes behind those of the term; none where it has more.
///
/// It looks at no more nodes than there are to take.
pub fn left_by(t: &Term, most: u64) -> Option<u64>
    ensures { Takes (nodes t.now) most result }
{
    let rest = most.checked_sub(1)?;
    match t {
        Term::Bound(_) => Some(rest),
        Term::Free(_, _) => Some(rest),
        Term::Con(_) => Some(rest),
        Term::App(f, x) => {
            let behind = left_by(f.get(), rest)?;
            left_by(x.get(), behind)
        }
        Term::Lam(_, b) => left_by(b.get(), rest),
    }
}

/// Whether the term has at most so many nodes.
pub fn has_at_most(t: &Term, most: u64) -> bool
    ensures { result ≡ nat_le (nodes t.now) most }
{
    left_by(t, most).is_some()
}

/// The same for a constant, expanded.
fn left_by_konst(table: &Table, k: &Konst, most: u64) -> Option<u64>
    ensures { Takes (nodes (expanded_konst table.now k.now)) most result }
{
    match k {
        Konst::Aux(n) => match table.entries().get(*n as usize) {
            Some(entry) => left_by(&entry.closed, most),
            None => most.checked_sub(1),
        },
        _ => most.checked_sub(1),
    }
}

/// What is left of a number of nodes behind those of the term, expanded, which isn't made; none where it has more.
///
/// It looks at no more nodes than there are to take.
pub fn left_by_expanded(table: &Table, t: &Term, most: u64) -> Option<u64>
    ensures { Takes (nodes (expanded table.now t.now)) most result }
{
    match t {
        Term::Bound(_) => most.checked_sub(1),
        Term::Free(_, _) => most.checked_sub(1),
        Term::Con(k) => left_by_konst(table, k, most),
        Term::App(f, x) => {
            let rest = most.checked_sub(1)?;
            let behind = left_by_expanded(table, f.get(), rest)?;
            left_by_expanded(table, x.get(), behind)
        }
        Term::Lam(_, b) => {
            let rest = most.checked_sub(1)?;
            left_by_expanded(table, b.get(), rest)
        }
    }
}

/// Whether the walk meets no place of the formula more often than so.
pub fn is_met_at_most(f: &Formula, most: u64) -> bool
    ensures { result ≡ nat_le (meetings f.now) most }
{
    match f {
        Formula::True => most >= 1,
        Formula::False => most >= 1,
        Formula::Atom(_) => most >= 1,
        Formula::Not(a) => is_met_at_most(a.get(), most),
        Formula::Two(Junction::Iff, a, b) => {
            is_met_at_most(a.get(), most / 2) && is_met_at_most(b.get(), most / 2)
        }
        Formula::Two(_, a, b) => is_met_at_most(a.get(), most) && is_met_at_most(b.get(), most),
        Formula::Quantified(_, _, _, b) => is_met_at_most(b.get(), most),
    }
}
