ghost use Rattle.std.specs.Prelude.{◌≡◌, Bool, false, [], IfOk};
ghost use Rattle.fo_terms.specs.declared.clause.Clause.{Clause};
ghost use Rattle.fo_infer.specs.Inferences.{BetweenAt};
ghost use Rattle.fo_infer.specs.inner.Places.{position_of};
ghost use Rattle.pair_marks.specs.Marking.{AreMarksOf, NoneShares};

use crate::gathering::{negatives_of, parts_of};
use crate::listing::{positives_of, sides_of};
use crate::marks::{Marks, share};
use fo_terms::Clause;
use std::alloc::Global;
use text_kit::{NoMemory, Rows};

/// What a clause needs of others and offers to them in inferences, as marks of its terms' top symbols.
///
/// Beside its own size it takes 32 bytes for each positive literal that is no equation, and 64 for each positive equation.
#[derive(Drop)]
pub struct PairMarks {
    positives: Rows<Marks>,
    sides: Rows<Marks>,
    negatives: Marks,
    parts: Marks,
}

/// The marks of a clause, for inferences at tags or, where all are plain, at all subterms that are no variables.
///
/// It walks over each term of the clause once. The contract says that the marks suffice for `may_infer`, and not how
/// few they are.
///
/// (Superimposed marks are B. H. Bloom's, 1970; an index by what terms show at few places is fingerprint indexing,
/// S. Schulz, 2012.)
pub fn marks_of(alloc: Global, plain: bool, clause: &Clause) -> Result<PairMarks, NoMemory>
    ensures { IfOk result (λ m. AreMarksOf plain clause.now m) }
{
    let literals = clause.literals.as_slice();
    Ok(PairMarks {
        positives: positives_of(alloc, literals)?,
        sides: sides_of(alloc, literals)?,
        negatives: negatives_of(literals),
        parts: parts_of(plain, literals),
    })
}

fn shares_some(needs: &[Marks], offers: &Marks) -> bool
    ensures { result ≡ false → NoneShares needs.now offers.now }
{
    for need in needs {
        if share(need, offers) {
            return true;
        }
    }
    false
}

/// Whether two clauses may have inferences, as far as their marks tell.
///
/// Where it says no, there are none. The contract doesn't say when it says yes. It takes no memory, and a few steps for
/// each positive literal of the left clause.
pub fn may_infer(left: &PairMarks, right: &PairMarks) -> bool
    ensures { result ≡ false → (plain : Bool) (p q : Clause) → AreMarksOf plain p left.now → AreMarksOf plain q right.now → BetweenAt (position_of plain) p q [] }
{
    shares_some(left.positives.as_slice(), &right.negatives)
        || shares_some(left.sides.as_slice(), &right.parts)
}
