ghost use Rattle.std.specs.Prelude.{◌≡◌, ◌↔◌, ◌-◌, ◌^◌, min, IsTrue, IfOk};
ghost use Rattle.std.specs.FinSet as set;
ghost use Rattle.hol_terms.specs.Substitution.{put_free as replaced, one_put};
ghost use Rattle.hyp_sets.specs.Order.{is_same};
ghost use Rattle.hyp_sets.specs.Sets.{set_of, only, image, absent};
ghost use Rattle.hyp_sets.specs.inner.Trees.{Ascends};

use crate::counting::in_terms;
use crate::looking::{count, has, list_into, none_has};
use crate::tree::{Tree, leaf, single, weight_of};
use crate::uniting::{all_replaced, covers, gathered, taken_out};
use hol_terms::{Term, Ty, same};
use std::alloc::Global;
use std::marker::Model;
use text_kit::{NoMemory, Rows, Shared};

/// A finite set of terms. A copy takes constant time; a set that an operation leaves as it is, is shared.
///
/// It is a search tree in balance, whose parts are shared with the sets that it was made of: a term is looked up, put
/// in or taken out with about 2.4 log2 n comparisons at most, and m terms are united with n more with about
/// m log(n / m + 1).
#[derive(Debug, Drop)]
pub struct Hyps {
    tree: Shared<Tree>,
}

impl Model for Hyps {
    ghost use Rattle.std.specs.FinSet as set;
    ghost use Rattle.hyp_sets.specs.Order.{term_cmp};
    ghost use Rattle.hol_terms.specs.contracts.term.Term as term;

    ghost Value = { set.FinSet term_cmp };

    ghost coded = { set.code term.the_row.coded };

    ghost use Rattle.hyp_sets.specs.Sets.{set_of};
    ghost use Rattle.hyp_sets.specs.inner.Trees.{items, Ascends};

    ghost view = { λ h. set_of (items h.tree) };

    ghost invariant = { λ h. Ascends (items h.tree) };
}

impl Hyps {
    /// The set without terms.
    pub fn none(alloc: Global) -> Result<Hyps, NoMemory>
        ensures { IfOk result (λ s. s ≡ set.empty) }
    {
        let tree = leaf(alloc)?;
        Ok(Hyps { tree })
    }

    /// The set of one term. Want of memory is the answer where the term has more than 2^28 nodes, or is deeper than
    /// `hol_terms::DEEPEST`.
    pub fn one(alloc: Global, t: Term) -> Result<Hyps, NoMemory>
        ensures { IfOk result (λ s. s ≡ only t) }
    {
        let tree = single(alloc, t)?;
        Ok(Hyps { tree })
    }

    /// The same set once more, in constant time.
    pub fn again(&self) -> Result<Hyps, NoMemory>
        ensures { IfOk result (λ s. s ≡ self.now) }
    {
        let tree = self.tree.again()?;
        Ok(Hyps { tree })
    }

    /// The nodes that the terms would have in all if they were written out as trees, their types counted. It takes
    /// no memory. The number guides bounds on work alone, and no clause speaks of it.
    pub fn nodes(&self) -> u64 {
        weight_of(self.tree.get()).nodes
    }

    /// The number of terms, or the greatest `u64` where there are more, in one walk. It takes no memory.
    pub fn len(&self) -> u64
        ensures { result ≡ min (set.len self.now) (2 ^ 64 - 1) }
    {
        count(self.tree.get())
    }

    /// The number of terms, in constant time and without memory. It guides bounds on work alone, and no clause
    /// speaks of it.
    pub fn size(&self) -> u64 {
        weight_of(self.tree.get()).terms
    }

    /// How often `Free(n, ty)` occurs in the terms. It takes no memory. The number guides bounds on work alone, and no
    /// clause speaks of it.
    pub fn occurrences(&self, n: u64, ty: &Ty) -> u64 {
        in_terms(n, ty, self.tree.get())
    }

    /// The terms in ascending order, each once.
    pub fn listed(&self, alloc: Global) -> Result<Rows<Term>, NoMemory>
        ensures value { IfOk result (λ list. set_of list ≡ self.now) }
        ensures ascends { IfOk result (λ list. Ascends list) }
    {
        let mut list = Rows::begin(alloc);
        list_into(&mut list, self.tree.get())?;
        Ok(list)
    }

    /// Whether there is no term. It takes no memory.
    pub fn is_empty(&self) -> bool
        ensures { IsTrue result ↔ (self.now ≡ set.empty) }
    {
        match self.tree.get() {
            Tree::Leaf => true,
            Tree::Fork(_, _, _, _) => false,
        }
    }

    /// Whether the term is in the set. It takes no memory.
    pub fn holds(&self, t: &Term) -> bool
        ensures { result ≡ set.contains self.now t.now }
    {
        has(self.tree.get(), t)
    }

    /// Whether `Free(n, ty)` occurs in no term of the set. It takes no memory.
    pub fn lacks(&self, n: u64, ty: &Ty) -> bool
        ensures { result ≡ absent n ty.now self.now }
    {
        none_has(n, ty, self.tree.get())
    }

    /// The set without one term.
    pub fn without(&self, alloc: Global, t: &Term) -> Result<Hyps, NoMemory>
        ensures { IfOk result (λ s. s ≡ set.remove self.now t.now) }
    {
        if self.holds(t) {
            let tree = taken_out(alloc, &self.tree, t)?;
            Ok(Hyps { tree })
        } else {
            self.again()
        }
    }

    /// The terms of one of two sets.
    pub fn union(&self, alloc: Global, other: &Hyps) -> Result<Hyps, NoMemory>
        ensures { IfOk result (λ s. s ≡ set.union self.now other.now) }
    {
        if covers(alloc, &self.tree, other.tree.get())? {
            self.again()
        } else if covers(alloc, &other.tree, self.tree.get())? {
            other.again()
        } else {
            let tree = gathered(alloc, &self.tree, &other.tree)?;
            Ok(Hyps { tree })
        }
    }

    /// Each term with `u` for `Free(n, ty)`.
    pub fn replaced(&self, alloc: Global, n: u64, ty: &Ty, u: &Term) -> Result<Hyps, NoMemory>
        ensures { IfOk result (λ s. s ≡ image (replaced (one_put n ty.now u.now)) self.now) }
    {
        if self.lacks(n, ty) {
            self.again()
        } else {
            let tree = all_replaced(alloc, &self.tree, n, ty, u)?;
            Ok(Hyps { tree })
        }
    }
}

/// Whether two terms are the same, in the words of sets. It takes no memory.
pub fn tied(s: &Term, t: &Term) -> bool
    ensures { result ≡ is_same s.now t.now }
{
    same(s, t)
}
