ghost use Rattle.std.specs.Prelude.{◌≡◌, IsTrue, IfOk};
ghost use Rattle.std.specs.FinSet as set;
ghost use Rattle.hol_terms.specs.Substitution.{put_free as replaced, one_put};
ghost use Rattle.hyp_sets.specs.Sets.{set_of, Among, image};
ghost use Rattle.hyp_sets.specs.inner.Trees.{items, Ascends, CutAt};

use crate::joining::{glued, join};
use crate::looking::has;
use crate::tree::{Tree, single, weight_of};
use hol_terms::{Term, Ty, compare, put_free};
use std::alloc::Global;
use std::cmp::Ordering;
use text_kit::{NoMemory, Shared};

/// A tree cut at a term: the terms before it, whether it is there, and the terms after it.
#[derive(Drop)]
struct Cut {
    before: Shared<Tree>,
    held: bool,
    after: Shared<Tree>,
}

/// Cuts a tree at a term, in time of the levels.
fn cut_at(alloc: Global, t: &Shared<Tree>, x: &Term) -> Result<Cut, NoMemory>
    requires { Ascends (items t.now) }
    ensures { IfOk result (λ c. CutAt x.now (items t.now) (items c.before) c.held (items c.after)) }
{
    match t.get() {
        Tree::Leaf => Ok(Cut {
            before: t.again()?,
            held: false,
            after: t.again()?,
        }),
        Tree::Fork(l, k, r, _) => match compare(x, &k.get().term) {
            Ordering::Equal => Ok(Cut {
                before: l.again()?,
                held: true,
                after: r.again()?,
            }),
            Ordering::Less => {
                let left = cut_at(alloc, l, x)?;
                Ok(Cut {
                    before: left.before.again()?,
                    held: left.held,
                    after: join(alloc, &left.after, k, r)?,
                })
            }
            Ordering::Greater => {
                let right = cut_at(alloc, r, x)?;
                Ok(Cut {
                    before: join(alloc, l, k, &right.before)?,
                    held: right.held,
                    after: right.after.again()?,
                })
            }
        },
    }
}

/// Whether the first tree has all terms of the second, which it hasn't where it has fewer.
///
/// For m terms of the second and n of the first it takes time of about m log(n / m + 1) comparisons, and those of one
/// way down where the second's uppermost term is missing.
pub(crate) fn covers(alloc: Global, whole: &Shared<Tree>, part: &Tree) -> Result<bool, NoMemory>
    requires { Ascends (items whole.now) }
    ensures { IfOk result (λ b. IsTrue b → Among (set_of (items part.now)) (set_of (items whole.now))) }
{
    match part {
        Tree::Leaf => Ok(true),
        Tree::Fork(l, k, r, weight) => {
            if weight_of(whole.get()).terms < weight.terms {
                return Ok(false);
            }
            if !has(whole.get(), &k.get().term) {
                return Ok(false);
            }
            let cut = cut_at(alloc, whole, &k.get().term)?;
            if covers(alloc, &cut.before, l.get())? {
                covers(alloc, &cut.after, r.get())
            } else {
                Ok(false)
            }
        }
    }
}

/// A tree without one term.
pub(crate) fn taken_out(alloc: Global, t: &Shared<Tree>, x: &Term) -> Result<Shared<Tree>, NoMemory>
    requires { Ascends (items t.now) }
    ensures ascends { IfOk result (λ u. Ascends (items u)) }
    ensures value { IfOk result (λ u. set_of (items u) ≡ set.remove (set_of (items t.now)) x.now) }
{
    let cut = cut_at(alloc, t, x)?;
    glued(alloc, &cut.before, &cut.after)
}

/// The terms of one of two trees. For m terms in one of them and n in the other, m being the less, it takes time of
/// about m log(n / m + 1) comparisons.
fn united(alloc: Global, s: &Shared<Tree>, t: &Shared<Tree>) -> Result<Shared<Tree>, NoMemory>
    requires first { Ascends (items s.now) }
    requires second { Ascends (items t.now) }
    ensures ascends { IfOk result (λ u. Ascends (items u)) }
    ensures value { IfOk result (λ u. set_of (items u) ≡ set.union (set_of (items s.now)) (set_of (items t.now))) }
{
    match (s.get(), t.get()) {
        (Tree::Leaf, _) => t.again(),
        (_, Tree::Leaf) => s.again(),
        (Tree::Fork(l, k, r, _), Tree::Fork(_, _, _, _)) => {
            let cut = cut_at(alloc, t, &k.get().term)?;
            let left = united(alloc, l, &cut.before)?;
            let right = united(alloc, r, &cut.after)?;
            join(alloc, &left, k, &right)
        }
    }
}

/// The terms of one of two trees, the one with fewer terms taken apart.
pub(crate) fn gathered(
    alloc: Global,
    s: &Shared<Tree>,
    t: &Shared<Tree>,
) -> Result<Shared<Tree>, NoMemory>
    requires first { Ascends (items s.now) }
    requires second { Ascends (items t.now) }
    ensures ascends { IfOk result (λ u. Ascends (items u)) }
    ensures value { IfOk result (λ u. set_of (items u) ≡ set.union (set_of (items s.now)) (set_of (items t.now))) }
{
    if weight_of(t.get()).terms < weight_of(s.get()).terms {
        united(alloc, t, s)
    } else {
        united(alloc, s, t)
    }
}

/// Each term with `u` for `Free(n, ty)`.
pub(crate) fn all_replaced(
    alloc: Global,
    t: &Shared<Tree>,
    n: u64,
    ty: &Ty,
    u: &Term,
) -> Result<Shared<Tree>, NoMemory>
    ensures ascends { IfOk result (λ s. Ascends (items s)) }
    ensures value { IfOk result (λ s. set_of (items s) ≡ image (replaced (one_put n ty.now u.now)) (set_of (items t.now))) }
{
    match t.get() {
        Tree::Leaf => t.again(),
        Tree::Fork(l, k, r, _) => {
            let left = all_replaced(alloc, l, n, ty, u)?;
            let right = all_replaced(alloc, r, n, ty, u)?;
            let sides = gathered(alloc, &left, &right)?;
            let one = single(alloc, put_free(alloc, &k.get().term, n, ty, u)?)?;
            united(alloc, &one, &sides)
        }
    }
}
