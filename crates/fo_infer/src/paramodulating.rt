ghost use Rattle.std.specs.Prelude.{◌≡◌, ◌<◌, ◌+◌, ◌++◌, ◌∷◌, [], ℕ, List, map, take, drop, length, Some, slice_get, slice_set, IfOk, OnOk, MatchBool};
ghost use Rattle.fo_terms.specs.Substitution.{put_literals};
ghost use Rattle.fo_terms.specs.declared.term.FoTerm.{FoTerm};
ghost use Rattle.fo_unify.specs.Lookup.{term_of};
ghost use Rattle.fo_order.specs.Eligible.{IsEligible};
ghost use Rattle.fo_infer.specs.declared.made.Rule.TheVariants.{Para};
ghost use Rattle.fo_infer.specs.Paths.{paths_of, behind_places, at_atom_path, atom_paths};
ghost use Rattle.fo_terms.specs.declared.literal.Literal.{Literal};
ghost use Rattle.fo_terms.specs.declared.clause.Clause.{Clause};
ghost use Rattle.fo_infer.specs.Inferences.{renamed_apart, PairGives, position_rules, direction_rules, para_rules, all_para_rules};
ghost use Rattle.fo_infer.specs.inner.Adding.{Answered, entry, Adds};
ghost use Rattle.fo_infer.specs.inner.Findings.{given_by, all_made};
ghost use Rattle.fo_infer.specs.inner.Places.{position_of, IsSource, NotBelow, rules_behind};

use crate::adding::add;
use crate::concluding::push_put;
use crate::meeting::may_meet;
use crate::orienting::{is_slight_atom, stays_less};
use crate::paths::fits;
use crate::ranking::not_below;
use crate::reading::sides;
use crate::source::Source;
use crate::{Finding, Rule};
use fo_order::eligible;
use fo_terms::{Atom, Clause, FoTerm, Literal};
use fo_unify::{Bind, Bindings, meet};
use std::alloc::Global;
use text_kit::{NoMemory, Rows};

/// Adds literals with another one in the place of one of them, all with the substitution put through.
pub fn push_changed(
    alloc: Global,
    binds: &[Bind],
    literals: &[Literal],
    at: usize,
    by: Literal,
    out: &mut Rows<Literal>,
) -> Result<(), NoMemory>
    requires { at < length literals.now }
    ensures { OnOk result (out.new ≡ out.old ++ put_literals (term_of binds.now) (slice_set literals.now at by)) }
{
    let mut one = Rows::begin(alloc);
    one.push(by)?;
    push_before(alloc, &*binds, &*literals, at, out)?;
    push_put(alloc, &*binds, one.as_slice(), out)?;
    push_after(alloc, &*binds, &*literals, at, out)?;
    Ok(())
}

fn push_before(
    alloc: Global,
    binds: &[Bind],
    literals: &[Literal],
    at: usize,
    out: &mut Rows<Literal>,
) -> Result<(), NoMemory>
    requires { at < length literals.now }
    ensures { OnOk result (out.new ≡ out.old ++ put_literals (term_of binds.now) (take at literals.now)) }
{
    push_put(alloc, &*binds, &literals[..at], out)?;
    Ok(())
}

fn push_after(
    alloc: Global,
    binds: &[Bind],
    literals: &[Literal],
    at: usize,
    out: &mut Rows<Literal>,
) -> Result<(), NoMemory>
    requires { at < length literals.now }
    ensures { OnOk result (out.new ≡ out.old ++ put_literals (term_of binds.now) (drop (at + 1) literals.now)) }
{
    push_put(alloc, &*binds, &literals[at + 1..], out)?;
    Ok(())
}

/// The unifier of the side that is sought with one subterm of the right clause's literal `j`, where the equation may be put in there.
fn para_at<'a>(
    alloc: Global,
    from: &Source<'a>,
    j: usize,
    into: &Literal,
    path: &[u64],
    u: &'a FoTerm,
) -> Result<Option<Bindings<'a>>, NoMemory>
    requires source { IsSource from.now }
    requires place { j < length from.now.apart.now }
    requires literal { slice_get from.now.apart.now j ≡ Some into.now }
    requires eligible { IsEligible from.now.q.now j }
    requires subterm { at_atom_path path.now into.now.atom ≡ Some u.now }
    ensures { IfOk result (λ o. Answered (PairGives (position_of from.now.plain) from.now.p.now from.now.q.now (Para from.now.i from.now.swapped j path.now)) (given_by from.now.p.now from.now.apart.now (Para from.now.i from.now.swapped j path.now) o)) }
{
    if !fits(from.plain, &into.atom, &*path, u) {
        return Ok(None);
    }
    let sought = from.sought;
    if !may_meet(sought, u) {
        return Ok(None);
    }
    match meet(alloc, sought, u)? {
        None => Ok(None),
        Some(unifier) => {
            if !not_below(alloc, &unifier, sought, from.put_in)? {
                return Ok(None);
            }
            Ok(Some(unifier))
        }
    }
}

/// Appends what the equation was found to give at a subterm, where it gives something.
fn add_at<'a>(
    alloc: Global,
    from: &Source<'a>,
    j: usize,
    path: &Rows<u64>,
    found: Option<Bindings<'a>>,
    out: &mut Rows<Finding<'a>>,
) -> Result<(), NoMemory>
    ensures { (p : Clause) (apart : List Literal) → OnOk result (all_made p apart out.new ≡ all_made p apart out.old ++ entry (Para from.now.i from.now.swapped j path.now) (given_by p apart (Para from.now.i from.now.swapped j path.now) found.entry)) }
{
    match found {
        None => Ok(()),
        Some(unifier) => {
            let rule = Rule::Para {
                i: from.i as u64,
                swapped: from.swapped,
                j: j as u64,
                path: path.copy(alloc)?,
            };
            out.push(Finding { rule, unifier })?;
            Ok(())
        }
    }
}

/// What the equation gives at the term, whose path is given, and below it, in reading order.
#[cycle(walking)]
fn walk<'a>(
    alloc: Global,
    t: &'a FoTerm,
    from: &Source<'a>,
    j: usize,
    into: &Literal,
    path: &mut Rows<u64>,
    out: &mut Rows<Finding<'a>>,
) -> Result<(), NoMemory>
    requires source { IsSource from.now }
    requires place { j < length from.now.apart.now }
    requires literal { slice_get from.now.apart.now j ≡ Some into.now }
    requires eligible { IsEligible from.now.q.now j }
    requires subterm { at_atom_path path.old into.now.atom ≡ Some t.now }
    ensures path { OnOk result (path.new ≡ path.old) }
    ensures adds { OnOk result (Adds (PairGives (position_of from.now.plain) from.now.p.now from.now.q.now) (rules_behind from.now.i from.now.swapped j path.old (paths_of t.now)) (all_made from.now.p.now from.now.apart.now out.old) (all_made from.now.p.now from.now.apart.now out.new)) }
{
    let found = para_at(alloc, &*from, j, &*into, path.as_slice(), t)?;
    add_at(alloc, &*from, j, &*path, found, out)?;
    match t {
        FoTerm::Var(_) => Ok(()),
        FoTerm::Fun(_, args) => {
            walk_all(alloc, args.as_slice(), from, j, into, path, out)?;
            Ok(())
        }
    }
}

#[cycle(walking)]
fn walk_all<'a>(
    alloc: Global,
    terms: &'a [FoTerm],
    from: &Source<'a>,
    j: usize,
    into: &Literal,
    path: &mut Rows<u64>,
    out: &mut Rows<Finding<'a>>,
) -> Result<(), NoMemory>
    requires source { IsSource from.now }
    requires place { j < length from.now.apart.now }
    requires literal { slice_get from.now.apart.now j ≡ Some into.now }
    requires eligible { IsEligible from.now.q.now j }
    requires subterms { (k : ℕ) (t : FoTerm) → slice_get terms.now k ≡ Some t → at_atom_path (path.old ++ k ∷ []) into.now.atom ≡ Some t }
    ensures path { OnOk result (path.new ≡ path.old) }
    ensures adds { OnOk result (Adds (PairGives (position_of from.now.plain) from.now.p.now from.now.q.now) (rules_behind from.now.i from.now.swapped j path.old (behind_places 0 (map paths_of terms.now))) (all_made from.now.p.now from.now.apart.now out.old) (all_made from.now.p.now from.now.apart.now out.new)) }
{
    for k in 0..terms.len() {
        path.push(k as u64)?;
        walk(alloc, &terms[k], &*from, j, &*into, path, out)?;
        let _ = path.pop();
    }
    Ok(())
}

/// What the equation gives at the positions of one literal of the right clause, in reading order.
fn walk_literal<'a>(
    alloc: Global,
    from: &Source<'a>,
    j: usize,
    into: &'a Literal,
    out: &mut Rows<Finding<'a>>,
) -> Result<(), NoMemory>
    requires source { IsSource from.now }
    requires place { j < length from.now.apart.now }
    requires literal { slice_get from.now.apart.now j ≡ Some into.now }
    requires eligible { IsEligible from.now.q.now j }
    ensures { OnOk result (Adds (PairGives (position_of from.now.plain) from.now.p.now from.now.q.now) (map (λ path. Para from.now.i from.now.swapped j path) (atom_paths into.now.atom)) (all_made from.now.p.now from.now.apart.now out.old) (all_made from.now.p.now from.now.apart.now out.new)) }
{
    match &into.atom {
        Atom::Holds(t) => {
            walk_side(alloc, t, &*from, j, into, 0, out)?;
            Ok(())
        }
        Atom::Eq(s, t) => {
            walk_side(alloc, s, &*from, j, into, 0, out)?;
            walk_side(alloc, t, &*from, j, into, 1, out)?;
            Ok(())
        }
    }
}

fn walk_side<'a>(
    alloc: Global,
    t: &'a FoTerm,
    from: &Source<'a>,
    j: usize,
    into: &Literal,
    side: u64,
    out: &mut Rows<Finding<'a>>,
) -> Result<(), NoMemory>
    requires source { IsSource from.now }
    requires place { j < length from.now.apart.now }
    requires literal { slice_get from.now.apart.now j ≡ Some into.now }
    requires eligible { IsEligible from.now.q.now j }
    requires subterm { at_atom_path (side ∷ []) into.now.atom ≡ Some t.now }
    ensures { OnOk result (Adds (PairGives (position_of from.now.plain) from.now.p.now from.now.q.now) (rules_behind from.now.i from.now.swapped j (side ∷ []) (paths_of t.now)) (all_made from.now.p.now from.now.apart.now out.old) (all_made from.now.p.now from.now.apart.now out.new)) }
{
    let mut path = Rows::begin(alloc);
    path.push(side)?;
    walk(alloc, t, from, j, into, &mut path, out)?;
    Ok(())
}

/// What the equation gives at the right clause's literal `j`, where that is eligible.
fn para_literal<'a>(
    alloc: Global,
    from: &Source<'a>,
    j: usize,
    out: &mut Rows<Finding<'a>>,
) -> Result<(), NoMemory>
    requires source { IsSource from.now }
    requires place { j < length from.now.apart.now }
    requires within { j < length from.now.q.now.literals }
    ensures { OnOk result (Adds (PairGives (position_of from.now.plain) from.now.p.now from.now.q.now) (position_rules from.now.apart.now from.now.i from.now.swapped j) (all_made from.now.p.now from.now.apart.now out.old) (all_made from.now.p.now from.now.apart.now out.new)) }
{
    if !eligible(from.q, j) {
        return Ok(());
    }
    let apart = from.apart;
    let into = apart.at(j);
    if from.stays_less && is_slight_atom(&into.atom) {
        return Ok(());
    }
    walk_literal(alloc, &*from, j, into, out)?;
    Ok(())
}

/// What the equation gives in one direction.
fn para_direction<'a>(
    alloc: Global,
    from: &Source<'a>,
    out: &mut Rows<Finding<'a>>,
) -> Result<(), NoMemory>
    requires source { IsSource from.now }
    ensures { OnOk result (Adds (PairGives (position_of from.now.plain) from.now.p.now from.now.q.now) (direction_rules from.now.apart.now from.now.i from.now.swapped) (all_made from.now.p.now from.now.apart.now out.old) (all_made from.now.p.now from.now.apart.now out.new)) }
{
    for j in 0..from.q.literals.len() {
        para_literal(alloc, &*from, j, out)?;
    }
    Ok(())
}

/// What the left clause's literal `i` gives, where it is an eligible positive equation: as written, and then swapped.
fn para_equation<'a>(
    alloc: Global,
    plain: bool,
    p: &'a Clause,
    q: &'a Clause,
    apart: &'a Rows<Literal>,
    i: usize,
    out: &mut Rows<Finding<'a>>,
) -> Result<(), NoMemory>
    requires apart { apart.now ≡ renamed_apart p.now q.now }
    requires left { i < length p.now.literals }
    ensures { OnOk result (Adds (PairGives (position_of plain) p.now q.now) (para_rules apart.now i) (all_made p.now apart.now out.old) (all_made p.now apart.now out.new)) }
{
    match sides(p.literals.at(i), true) {
        None => Ok(()),
        Some((a, b)) => {
            if !eligible(p, i) {
                return Ok(());
            }
            let written = Source {
                plain,
                p,
                q,
                apart,
                i,
                swapped: false,
                sought: a,
                put_in: b,
                stays_less: stays_less(a, b),
            };
            para_direction(alloc, &written, out)?;
            let swapped = Source {
                plain,
                p,
                q,
                apart,
                i,
                swapped: true,
                sought: b,
                put_in: a,
                stays_less: stays_less(b, a),
            };
            para_direction(alloc, &swapped, out)?;
            Ok(())
        }
    }
}

/// The unifiers of all paramodulants of two clauses, in order.
pub fn paramodulate<'a>(
    alloc: Global,
    plain: bool,
    p: &'a Clause,
    q: &'a Clause,
    apart: &'a Rows<Literal>,
    out: &mut Rows<Finding<'a>>,
) -> Result<(), NoMemory>
    requires apart { apart.now ≡ renamed_apart p.now q.now }
    ensures { OnOk result (Adds (PairGives (position_of plain) p.now q.now) (all_para_rules p.now q.now) (all_made p.now apart.now out.old) (all_made p.now apart.now out.new)) }
{
    for i in 0..p.literals.len() {
        para_equation(alloc, plain, p, q, apart, i, out)?;
    }
    Ok(())
}
