ghost use Rattle.std.specs.Prelude.{◌≡◌, ◌↔◌, true, All, Any, IsTrue, IfOk};
ghost use Rattle.fo_terms.specs.declared.clause.Clause.{Clause};
ghost use Rattle.fo_infer.specs.Subsumption.{Subsumes};
ghost use Rattle.cover_marks.specs.Marks.{clause_marks};
ghost use Rattle.cover_marks.specs.Cover.{IsWithin, MayCover};

use crate::marks::{of_flat_literal, of_literal};
use fo_cells::FlatClause;
use fo_terms::Clause;
use std::alloc::Global;
use std::marker::Model;
use text_kit::{NoMemory, Rows};

/// The marks of a clause's literals, which contracts see as the list of the words, one for each literal, in order.
///
/// Beside its own size it takes 8 bytes for each literal, and up to as much again.
#[derive(Drop)]
pub struct ClauseMarks {
    /// the marks of all literals together, which most clauses are told apart by
    all: u64,
    words: Rows<u64>,
}

impl Model for ClauseMarks {
    ghost use Rattle.std.specs.Prelude.{ℕ, List};

    ghost Value = { List ℕ };

    ghost view = { λ it. it.words };

    ghost use Rattle.cover_marks.specs.inner.Union.{IsUnion};

    ghost invariant = { λ it. IsUnion it.words it.all };
}

/// The marks of a clause's literals.
///
/// It walks over each term of the clause once. A substitution changes no symbol of a literal and no place of one, so what
/// it makes of a literal has all marks of the literal.
///
/// (One word of marks for many features is B. H. Bloom's, 1970; clauses told apart by features before they are matched
/// is S. Schulz's "Simple and efficient clause subsumption with feature vector indexing", 2013.)
pub fn marks_of(alloc: Global, c: &Clause) -> Result<ClauseMarks, NoMemory>
    ensures { IfOk result (λ m. m ≡ clause_marks c.now) }
{
    let mut all = 0;
    let mut words = Rows::begin(alloc);
    for l in c.literals.as_slice() {
        let word = of_literal(l);
        words.push(word)?;
        all |= word;
    }
    Ok(ClauseMarks { all, words })
}

/// The marks of the literals of a clause as cells, which are those of the same clause as trees. It walks over each cell once.
pub fn marks_of_flat(alloc: Global, c: &FlatClause) -> Result<ClauseMarks, NoMemory>
    ensures { IfOk result (λ m. m ≡ clause_marks (record { literals = c.now })) }
{
    let mut all = 0;
    let mut words = Rows::begin(alloc);
    for i in 0..c.len() {
        let word = of_flat_literal(c, i);
        words.push(word)?;
        all |= word;
    }
    Ok(ClauseMarks { all, words })
}

fn is_within_some(word: u64, words: &[u64]) -> bool
    ensures { IsTrue result ↔ Any (IsWithin word) words.now }
{
    for other in words {
        if word | *other == *other {
            return true;
        }
    }
    false
}

fn are_within_some(words: &[u64], others: &[u64]) -> bool
    ensures { IsTrue result ↔ All (λ m. Any (IsWithin m) others.now) words.now }
{
    for word in words {
        if !is_within_some(*word, others) {
            return false;
        }
    }
    true
}

/// Whether the clause of the one marks may subsume that of the other, as far as they tell: it has no more literals, and
/// the marks of each are within those of some literal of the other.
///
/// Where it says no, it doesn't. What it lets through need not subsume, and how often that is, the contract doesn't say.
/// It takes no memory, and at most one step for each literal of the one with each of the other.
pub fn may_subsume(p: &ClauseMarks, q: &ClauseMarks) -> bool
    ensures exact { IsTrue result ↔ MayCover p.now q.now }
    ensures law { (c d : Clause) → p.now ≡ clause_marks c → q.now ≡ clause_marks d → Subsumes c d → result ≡ true }
{
    if p.all | q.all != q.all {
        return false;
    }
    p.words.len() <= q.words.len() && are_within_some(p.words.as_slice(), q.words.as_slice())
}
