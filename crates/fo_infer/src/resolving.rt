ghost use Rattle.std.specs.Prelude.{◌≡◌, ◌<◌, true, length, Some, slice_get, IfOk, OnOk};
ghost use Rattle.fo_terms.specs.declared.atom.Atom.TheVariants.{Holds};
ghost use Rattle.fo_infer.specs.declared.made.Rule.TheVariants.{Resolve};
ghost use Rattle.fo_infer.specs.Inferences.{renamed_apart, Position, Resolves, PairGives, resolve_rules, all_resolve_rules};
ghost use Rattle.fo_infer.specs.inner.Adding.{Answered, Adds};
ghost use Rattle.fo_infer.specs.inner.Findings.{given_by, all_made};

use crate::adding::add;
use crate::meeting::may_meet;
use crate::reading::held;
use crate::{Finding, Rule};
use fo_order::eligible;
use fo_terms::{Clause, FoTerm, Literal};
use fo_unify::{Bindings, meet};
use std::alloc::Global;
use text_kit::{NoMemory, Rows};

/// The unifier of the left clause's literal `i`, whose term is lent, with the right one's literal `j`.
fn resolve_at<'a>(
    alloc: Global,
    p: &Clause,
    q: &Clause,
    apart: &'a Rows<Literal>,
    i: usize,
    s: &'a FoTerm,
    j: usize,
) -> Result<Option<Bindings<'a>>, NoMemory>
    requires apart { apart.now ≡ renamed_apart p.now q.now }
    requires term { slice_get p.now.literals i ≡ Some (record { positive = true; atom = Holds s.now }) }
    requires left { i < length p.now.literals }
    requires right { j < length apart.now }
    requires place { j < length q.now.literals }
    ensures { IfOk result (λ u. Answered (Resolves p.now q.now i j) (given_by p.now apart.now (Resolve i j) u)) }
{
    match held(apart.at(j), false) {
        None => Ok(None),
        Some(t) => {
            if !may_meet(s, t) {
                return Ok(None);
            }
            if !eligible(p, i) {
                return Ok(None);
            }
            if !eligible(q, j) {
                return Ok(None);
            }
            let unifier = meet(alloc, s, t)?;
            Ok(unifier)
        }
    }
}

/// What the left clause's literal `i` gives with each literal of the right one.
fn resolve_literal<'a>(
    alloc: Global,
    p: &'a Clause,
    q: &Clause,
    apart: &'a Rows<Literal>,
    i: usize,
    out: &mut Rows<Finding<'a>>,
) -> Result<(), NoMemory>
    requires apart { apart.now ≡ renamed_apart p.now q.now }
    requires left { i < length p.now.literals }
    ensures { OnOk result ((position : Position) → Adds (PairGives position p.now q.now) (resolve_rules (length q.now.literals) i) (all_made p.now apart.now out.old) (all_made p.now apart.now out.new)) }
{
    match held(p.literals.at(i), true) {
        None => Ok(()),
        Some(s) => {
            for j in 0..q.literals.len() {
                let found = resolve_at(alloc, p, q, apart, i, s, j)?;
                add(
                    out,
                    Rule::Resolve {
                        i: i as u64,
                        j: j as u64,
                    },
                    found,
                )?;
            }
            Ok(())
        }
    }
}

/// The unifiers of all resolvents of two clauses, in order.
pub fn resolve<'a>(
    alloc: Global,
    p: &'a Clause,
    q: &Clause,
    apart: &'a Rows<Literal>,
    out: &mut Rows<Finding<'a>>,
) -> Result<(), NoMemory>
    requires apart { apart.now ≡ renamed_apart p.now q.now }
    ensures { OnOk result ((position : Position) → Adds (PairGives position p.now q.now) (all_resolve_rules p.now q.now) (all_made p.now apart.now out.old) (all_made p.now apart.now out.new)) }
{
    for i in 0..p.literals.len() {
        resolve_literal(alloc, p, q, apart, i, out)?;
    }
    Ok(())
}
