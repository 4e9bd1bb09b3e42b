ghost use Rattle.std.specs.Prelude.{◌≡◌, [], ◌∷◌, ◌++◌, IfOk};
ghost use Rattle.hyp_sets.specs.inner.Trees.{items};

use crate::tree::{Item, Tree, fork, weight_of};
use std::alloc::Global;
use text_kit::{NoMemory, Shared};

/// One more than the number of terms: the weight that balance goes by.
fn heft(t: &Tree) -> u64 {
    weight_of(t).terms.saturating_add(1)
}

/// Whether the first tree is too heavy to stand beside the second: a side may weigh three times as much as the other
/// (Y. Hirai and K. Yamamoto, 'Balancing weight-balanced trees', 2011). So a tree of n terms has at most about
/// 2.4 log2 n levels.
fn outweighs(a: &Tree, b: &Tree) -> bool {
    heft(a) > heft(b).saturating_mul(3)
}

/// Whether the inner tree is so heavy beside the outer one that two rotations are needed.
fn is_inner_heavy(inner: &Tree, outer: &Tree) -> bool {
    heft(inner) >= heft(outer).saturating_mul(2)
}

/// A fork whose left side is too heavy by the terms that were joined to it.
fn leaned_right(
    alloc: Global,
    l: &Shared<Tree>,
    k: &Shared<Item>,
    r: &Shared<Tree>,
) -> Result<Shared<Tree>, NoMemory>
    ensures { IfOk result (λ t. items t ≡ items l.now ++ k.now.term ∷ items r.now) }
{
    match l.get() {
        Tree::Leaf => fork(alloc, l, k, r),
        Tree::Fork(outer, j, inner, _) => {
            if is_inner_heavy(inner.get(), outer.get()) {
                divided(alloc, outer, j, inner, k, r)
            } else {
                let right = fork(alloc, inner, k, r)?;
                fork(alloc, outer, j, &right)
            }
        }
    }
}

/// The middle tree of three divided between the others.
fn divided(
    alloc: Global,
    l: &Shared<Tree>,
    j: &Shared<Item>,
    middle: &Shared<Tree>,
    k: &Shared<Item>,
    r: &Shared<Tree>,
) -> Result<Shared<Tree>, NoMemory>
    ensures { IfOk result (λ t. items t ≡ (items l.now ++ j.now.term ∷ items middle.now) ++ k.now.term ∷ items r.now) }
{
    match middle.get() {
        Tree::Leaf => {
            let right = fork(alloc, middle, k, r)?;
            fork(alloc, l, j, &right)
        }
        Tree::Fork(below, i, above, _) => {
            let left = fork(alloc, l, j, below)?;
            let right = fork(alloc, above, k, r)?;
            fork(alloc, &left, i, &right)
        }
    }
}

/// A fork whose right side is too heavy by the terms that were joined to it.
fn leaned_left(
    alloc: Global,
    l: &Shared<Tree>,
    k: &Shared<Item>,
    r: &Shared<Tree>,
) -> Result<Shared<Tree>, NoMemory>
    ensures { IfOk result (λ t. items t ≡ items l.now ++ k.now.term ∷ items r.now) }
{
    match r.get() {
        Tree::Leaf => fork(alloc, l, k, r),
        Tree::Fork(inner, j, outer, _) => {
            if is_inner_heavy(inner.get(), outer.get()) {
                divided(alloc, l, k, inner, j, outer)
            } else {
                let left = fork(alloc, l, k, inner)?;
                fork(alloc, &left, j, outer)
            }
        }
    }
}

/// A fork in balance, of sides that are out of it by what one join or one removal changed.
fn balanced(
    alloc: Global,
    l: &Shared<Tree>,
    k: &Shared<Item>,
    r: &Shared<Tree>,
) -> Result<Shared<Tree>, NoMemory>
    ensures { IfOk result (λ t. items t ≡ items l.now ++ k.now.term ∷ items r.now) }
{
    if outweighs(l.get(), r.get()) {
        leaned_right(alloc, l, k, r)
    } else if outweighs(r.get(), l.get()) {
        leaned_left(alloc, l, k, r)
    } else {
        fork(alloc, l, k, r)
    }
}

/// A term between two trees of any weights, in time of the difference of their levels.
///
/// Source: S. Adams, 'Efficient sets: a balancing act', 1993; G. Blelloch, D. Ferizovic and Y. Sun, 'Just join for
/// parallel ordered sets', 2016.
pub(crate) fn join(
    alloc: Global,
    l: &Shared<Tree>,
    k: &Shared<Item>,
    r: &Shared<Tree>,
) -> Result<Shared<Tree>, NoMemory>
    ensures { IfOk result (λ t. items t ≡ items l.now ++ k.now.term ∷ items r.now) }
{
    if outweighs(l.get(), r.get()) {
        join_right(alloc, l, k, r)
    } else {
        join_left(alloc, l, k, r)
    }
}

/// The join to the right side of a heavy tree.
fn join_right(
    alloc: Global,
    l: &Shared<Tree>,
    k: &Shared<Item>,
    r: &Shared<Tree>,
) -> Result<Shared<Tree>, NoMemory>
    ensures { IfOk result (λ t. items t ≡ items l.now ++ k.now.term ∷ items r.now) }
{
    match l.get() {
        Tree::Leaf => fork(alloc, l, k, r),
        Tree::Fork(below, j, above, _) => {
            if outweighs(l.get(), r.get()) {
                let right = join_right(alloc, above, k, r)?;
                balanced(alloc, below, j, &right)
            } else {
                fork(alloc, l, k, r)
            }
        }
    }
}

/// The join to the left side of a heavy tree.
fn join_left(
    alloc: Global,
    l: &Shared<Tree>,
    k: &Shared<Item>,
    r: &Shared<Tree>,
) -> Result<Shared<Tree>, NoMemory>
    ensures { IfOk result (λ t. items t ≡ items l.now ++ k.now.term ∷ items r.now) }
{
    match r.get() {
        Tree::Leaf => fork(alloc, l, k, r),
        Tree::Fork(below, j, above, _) => {
            if outweighs(r.get(), l.get()) {
                let left = join_left(alloc, l, k, below)?;
                balanced(alloc, &left, j, above)
            } else {
                fork(alloc, l, k, r)
            }
        }
    }
}

/// A tree without its last term, and that term.
#[derive(Drop)]
struct Last {
    rest: Shared<Tree>,
    item: Shared<Item>,
}

/// A fork without its last term, and that term.
fn last_apart(alloc: Global, l: &Shared<Tree>, k: &Shared<Item>, r: &Tree) -> Result<Last, NoMemory>
    ensures { IfOk result (λ p. items p.rest ++ p.item.term ∷ [] ≡ items l.now ++ k.now.term ∷ items r.now) }
{
    match r {
        Tree::Leaf => Ok(Last {
            rest: l.again()?,
            item: k.again()?,
        }),
        Tree::Fork(below, j, above, _) => {
            let last = last_apart(alloc, below, j, above.get())?;
            Ok(Last {
                rest: join(alloc, l, k, &last.rest)?,
                item: last.item.again()?,
            })
        }
    }
}

/// The terms of one tree and then those of another.
pub(crate) fn glued(
    alloc: Global,
    l: &Shared<Tree>,
    r: &Shared<Tree>,
) -> Result<Shared<Tree>, NoMemory>
    ensures { IfOk result (λ t. items t ≡ items l.now ++ items r.now) }
{
    match l.get() {
        Tree::Leaf => r.again(),
        Tree::Fork(below, k, above, _) => {
            let last = last_apart(alloc, below, k, above.get())?;
            join(alloc, &last.rest, &last.item, r)
        }
    }
}
