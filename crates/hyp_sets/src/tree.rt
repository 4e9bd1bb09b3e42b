ghost use Rattle.std.specs.Prelude.{◌≡◌, [], ◌∷◌, ◌++◌, IfOk};
ghost use Rattle.hyp_sets.specs.inner.Trees.{items};

use hol_terms::{Term, nodes};
use std::alloc::Global;
use text_kit::{NoMemory, Shared};

/// A search tree of terms, whose parts are shared with the trees that it was made of.
///
/// The terms ascend from left to right where a function's contract asks for it.
#[derive(Debug, Drop)]
pub(crate) enum Tree {
    Leaf,
    Fork(Shared<Tree>, Shared<Item>, Shared<Tree>, Weight),
}

/// A term with the number of its nodes.
#[derive(Debug, Drop)]
pub(crate) struct Item {
    pub(crate) term: Term,
    nodes: u64,
}

/// How many terms a tree has, and how many nodes these have in all. No clause speaks of it: it guides the balance of
/// trees and bounds on work.
#[derive(Clone, Copy, Debug)]
pub(crate) struct Weight {
    pub(crate) terms: u64,
    pub(crate) nodes: u64,
}

/// The most nodes of a term in a set.
const MOST_IN_A_TERM: u64 = 1 << 28;

pub(crate) fn weight_of(t: &Tree) -> Weight {
    match t {
        Tree::Leaf => Weight { terms: 0, nodes: 0 },
        Tree::Fork(_, _, _, weight) => *weight,
    }
}

/// The weight of a fork.
fn joint_weight(l: &Tree, k: &Item, r: &Tree) -> Weight {
    let left = weight_of(l);
    let right = weight_of(r);
    Weight {
        terms: left.terms.saturating_add(right.terms).saturating_add(1),
        nodes: left
            .nodes
            .saturating_add(right.nodes)
            .saturating_add(k.nodes),
    }
}

/// A term between two trees.
pub(crate) fn fork(
    alloc: Global,
    l: &Shared<Tree>,
    k: &Shared<Item>,
    r: &Shared<Tree>,
) -> Result<Shared<Tree>, NoMemory>
    ensures { IfOk result (λ t. items t ≡ items l.now ++ k.now.term ∷ items r.now) }
{
    let weight = joint_weight(l.get(), k.get(), r.get());
    Shared::new(
        alloc,
        Tree::Fork(l.again()?, k.again()?, r.again()?, weight),
    )
}

/// The tree without terms.
pub(crate) fn leaf(alloc: Global) -> Result<Shared<Tree>, NoMemory>
    ensures { IfOk result (λ t. items t ≡ []) }
{
    Shared::new(alloc, Tree::Leaf)
}

/// The tree of one term. Want of memory is the answer where the term has more than 2^28 nodes, or is deeper than
/// `hol_terms::DEEPEST`.
pub(crate) fn single(alloc: Global, term: Term) -> Result<Shared<Tree>, NoMemory>
    ensures { IfOk result (λ t. items t ≡ term ∷ []) }
{
    let nodes = nodes(&[], &term, MOST_IN_A_TERM)?;
    let item = Shared::new(alloc, Item { term, nodes })?;
    let none = leaf(alloc)?;
    fork(alloc, &none, &item, &none)
}
