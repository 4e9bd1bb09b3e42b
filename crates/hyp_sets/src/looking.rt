ghost use Rattle.std.specs.Prelude.{◌≡◌, ◌-◌, ◌^◌, ◌++◌, length, min, OnOk};
ghost use Rattle.std.specs.FinSet as set;
ghost use Rattle.std.specs.List.{list_all};
ghost use Rattle.hyp_sets.specs.Sets.{set_of, absent_in};
ghost use Rattle.hyp_sets.specs.inner.Trees.{items, Ascends};

use crate::tree::Tree;
use hol_terms::{Term, Ty, compare, copy, free_in};
use std::cmp::Ordering;
use text_kit::{NoMemory, Rows};

/// Whether a tree has a term, told on one way down.
pub(crate) fn has(t: &Tree, x: &Term) -> bool
    requires { Ascends (items t.now) }
    ensures { result ≡ set.contains (set_of (items t.now)) x.now }
{
    match t {
        Tree::Leaf => false,
        Tree::Fork(l, k, r, _) => match compare(x, &k.get().term) {
            Ordering::Equal => true,
            Ordering::Less => has(l.get(), x),
            Ordering::Greater => has(r.get(), x),
        },
    }
}

/// Whether `Free(n, ty)` occurs in no term of a tree.
pub(crate) fn none_has(n: u64, ty: &Ty, t: &Tree) -> bool
    ensures { result ≡ list_all (absent_in n ty.now) (items t.now) }
{
    match t {
        Tree::Leaf => true,
        Tree::Fork(l, k, r, _) => {
            none_has(n, ty, l.get()) && !free_in(n, ty, &k.get().term) && none_has(n, ty, r.get())
        }
    }
}

/// Appends the terms of a tree from left to right.
pub(crate) fn list_into(list: &mut Rows<Term>, t: &Tree) -> Result<(), NoMemory>
    ensures { OnOk result (list.new ≡ list.old ++ items t.now) }
{
    match t {
        Tree::Leaf => Ok(()),
        Tree::Fork(l, k, r, _) => {
            list_into(list, l.get())?;
            list.push(copy(&k.get().term)?)?;
            list_into(list, r.get())
        }
    }
}

/// The number of terms of a tree, in one walk.
pub(crate) fn count(t: &Tree) -> u64
    ensures { result ≡ min (length (items t.now)) (2 ^ 64 - 1) }
{
    match t {
        Tree::Leaf => 0,
        Tree::Fork(l, _, r, _) => count(l.get())
            .saturating_add(1)
            .saturating_add(count(r.get())),
    }
}
