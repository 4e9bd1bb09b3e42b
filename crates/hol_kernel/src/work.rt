use hol_terms::{Sig, Term, Ty, nodes, type_nodes};
use kernel_rules::{Sequent, Step, ThmId};
use text_kit::{NoMemory, Rows};

/// The nodes that a log may look at before its first step.
const AT_FIRST: u64 = 1 << 28;

/// The nodes by which each step adds to that.
const EACH_STEP: u64 = 1 << 16;

/// The number of steps that add.
const STEPS_THAT_ADD: u64 = 1 << 16;

/// The nodes that a log of so many steps may have looked at.
pub(crate) fn allowed(steps: u64) -> u64 {
    let adding = if steps < STEPS_THAT_ADD {
        steps
    } else {
        STEPS_THAT_ADD
    };
    AT_FIRST + EACH_STEP * adding
}

fn paid(left: u64, cost: u64) -> Result<u64, NoMemory> {
    match left.checked_sub(cost) {
        Some(rest) => Ok(rest),
        None => Err(NoMemory),
    }
}

/// What is left once a term that a step is given was looked at, and typed.
fn given(sig: &Sig, t: &Term, left: u64) -> Result<u64, NoMemory> {
    paid(left, nodes(sig.consts.as_slice(), t, left)?)
}

/// How much a set of hypotheses is to look at.
#[derive(Clone, Copy)]
struct Heft {
    terms: u64,
    nodes: u64,
}

impl Heft {
    /// What two sets are together at most.
    fn with(self, other: Heft) -> Heft {
        Heft {
            terms: self.terms.saturating_add(other.terms),
            nodes: self.nodes.saturating_add(other.nodes),
        }
    }
}

fn one_term(nodes: u64) -> Heft {
    Heft { terms: 1, nodes }
}

fn weighed(earlier: &Rows<Sequent>, a: &ThmId) -> Heft {
    match earlier.get(a.0 as usize) {
        Some(q) => Heft {
            terms: q.hyps.size(),
            nodes: q.hyps.nodes(),
        },
        None => Heft { terms: 0, nodes: 0 },
    }
}

/// About how many comparisons each of so many terms takes while they are looked up in a set and put into it or taken
/// out: two ways down of log2 (n / m) + 2 levels for m terms in n. At worst it takes three ways, and a tree in balance
/// has 2.4 times as many levels as log2 says.
fn comparisons(terms: u64, within: Heft) -> u64 {
    let times = within.terms / terms.max(1);
    let digits = 64u32.saturating_sub(times.leading_zeros());
    u64::from(digits).saturating_add(2).saturating_mul(2)
}

/// The nodes that are looked at while terms are looked up in a set and put into it or taken out. A comparison looks at
/// no more nodes than the smaller term has.
fn looking_up(new: Heft, within: Heft) -> u64 {
    new.nodes.saturating_mul(comparisons(new.terms, within))
}

/// The nodes that are looked at while two sets are united: the terms of the set with fewer are looked up and put into
/// the other.
fn uniting(a: Heft, b: Heft) -> u64 {
    if a.terms < b.terms {
        looking_up(a, b)
    } else if b.terms < a.terms {
        looking_up(b, a)
    } else {
        looking_up(a.with(b), a.with(b))
    }
}

fn kind(a: &Ty, left: u64) -> Result<u64, NoMemory> {
    paid(left, type_nodes(a, left)?)
}

/// What is left once the conclusion of an earlier theorem was looked at.
fn concluded(earlier: &Rows<Sequent>, a: &ThmId, left: u64) -> Result<u64, NoMemory> {
    match earlier.get(a.0 as usize) {
        Some(q) => paid(left, nodes(&[], &q.concl, left)?),
        None => Ok(left),
    }
}

/// What is left once the conclusion and the hypotheses of an earlier theorem were looked at.
fn looked_at(earlier: &Rows<Sequent>, a: &ThmId, left: u64) -> Result<u64, NoMemory> {
    let rest = concluded(earlier, a, left)?;
    paid(rest, weighed(earlier, a).nodes)
}

/// What is left once a conclusion was looked at, and a formula of so many nodes was taken out of the hypotheses.
fn taken_out(earlier: &Rows<Sequent>, a: &ThmId, formula: u64, left: u64) -> Result<u64, NoMemory> {
    let rest = concluded(earlier, a, left)?;
    paid(rest, looking_up(one_term(formula), weighed(earlier, a)))
}

/// What is left once two conclusions were looked at, and their hypotheses united.
fn both(earlier: &Rows<Sequent>, a: &ThmId, b: &ThmId, left: u64) -> Result<u64, NoMemory> {
    let rest = concluded(earlier, b, concluded(earlier, a, left)?)?;
    paid(rest, uniting(weighed(earlier, a), weighed(earlier, b)))
}

/// What is left once three conclusions were looked at, a side of the first taken out of the hypotheses of each of the
/// others, and the hypotheses united.
fn three(
    earlier: &Rows<Sequent>,
    ab: &ThmId,
    l: &ThmId,
    r: &ThmId,
    left: u64,
) -> Result<u64, NoMemory> {
    let rest = concluded(earlier, ab, left)?;
    let sides = left.saturating_sub(rest);
    let first = taken_out(earlier, l, sides, rest)?;
    let second = taken_out(earlier, r, sides, first)?;
    let two = weighed(earlier, ab).with(weighed(earlier, l));
    let united = paid(second, uniting(weighed(earlier, ab), weighed(earlier, l)))?;
    paid(united, uniting(two, weighed(earlier, r)))
}

/// What is left once a variable was looked for in a conclusion and its hypotheses, and a term of so many nodes put for
/// it there: what the terms have then is put in order.
fn instantiated(
    earlier: &Rows<Sequent>,
    a: &ThmId,
    n: u64,
    ty: &Ty,
    term: u64,
    left: u64,
) -> Result<u64, NoMemory> {
    let rest = looked_at(earlier, a, left)?;
    match earlier.get(a.0 as usize) {
        Some(q) => {
            let new = q.hyps.occurrences(n, ty).saturating_mul(term);
            let own = weighed(earlier, a);
            if new == 0 {
                Ok(rest)
            } else {
                let all = own.nodes.saturating_add(new);
                paid(rest, looking_up(one_term(all), own))
            }
        }
        None => Ok(rest),
    }
}

/// What is left of the nodes that may be looked at once a step's rule has looked at what it is put to, or want of
/// memory where that is more than there was. At most about as many nodes are looked at to tell.
pub(crate) fn left_after(
    sig: &Sig,
    earlier: &Rows<Sequent>,
    step: &Step,
    left: u64,
) -> Result<u64, NoMemory> {
    match step {
        Step::Fact(_) | Step::TrueIntro => Ok(left),
        Step::Assume(t) | Step::Refl(t) | Step::Beta(t) => given(sig, t, left),
        Step::ImpIntro(t, a) | Step::NotIntro(t, a) | Step::Classical(t, a) => {
            let rest = given(sig, t, left)?;
            taken_out(earlier, a, left.saturating_sub(rest), rest)
        }
        Step::OrLeft(t, a) | Step::OrRight(t, a) | Step::AllElim(t, a) => {
            concluded(earlier, a, given(sig, t, left)?)
        }
        Step::AndLeft(a) | Step::AndRight(a) | Step::Choose(a) => concluded(earlier, a, left),
        Step::ImpElim(a, b) | Step::AndIntro(a, b) | Step::NotElim(a, b) | Step::Iff(a, b) => {
            both(earlier, a, b, left)
        }
        Step::OrElim(ab, l, r) => three(earlier, ab, l, r, left),
        Step::AllIntro(_, ty, a) | Step::Abs(_, ty, a) => looked_at(earlier, a, kind(ty, left)?),
        Step::ExIntro(f, t, a) => concluded(earlier, a, given(sig, f, given(sig, t, left)?)?),
        Step::Subst(f, eq, a) => both(earlier, eq, a, given(sig, f, left)?),
        Step::Inst(n, ty, t, a) => {
            let typed = kind(ty, left)?;
            let rest = given(sig, t, typed)?;
            instantiated(earlier, a, *n, ty, typed.saturating_sub(rest), rest)
        }
    }
}
