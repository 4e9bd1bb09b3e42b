ghost use Rattle.std.specs.Prelude.{◌<◌, [], All, length, IfOk, OnOk};
ghost use Rattle.fo_infer.specs.declared.made.Rule.TheVariants.{Factor, Reflex};
ghost use Rattle.fo_infer.specs.Inferences.{Factors, Reflects, AloneGives, Alone, factor_rules, all_factor_rules, all_reflex_rules};
ghost use Rattle.fo_infer.specs.inner.Adding.{Answered, Adds, AtomsUnifierOf};
ghost use Rattle.fo_infer.specs.inner.Findings.{IsPlaced, given_by, all_made};

use crate::adding::add;
use crate::reading::sides;
use crate::writing::write_alone;
use crate::{Finding, Made, Rule};
use fo_terms::{Atom, Clause};
use fo_unify::{Bindings, meet, meet_both};
use std::alloc::Global;
use text_kit::{NoMemory, Rows};

/// A most general unifier of two atoms of one kind, sides in order.
fn unify_atoms<'a>(
    alloc: Global,
    a: &'a Atom,
    b: &'a Atom,
) -> Result<Option<Bindings<'a>>, NoMemory>
    ensures { IfOk result (λ u. AtomsUnifierOf a.now b.now u) }
{
    match (a, b) {
        (Atom::Holds(s), Atom::Holds(t)) => {
            let u = meet(alloc, s, t)?;
            Ok(u)
        }
        (Atom::Eq(s, t), Atom::Eq(x, y)) => {
            let u = meet_both(alloc, (s, x), (t, y))?;
            Ok(u)
        }
        (Atom::Holds(_), Atom::Eq(_, _)) => Ok(None),
        (Atom::Eq(_, _), Atom::Holds(_)) => Ok(None),
    }
}

/// The unifier of literals `i` and `j`, of which the later one goes.
fn factor_at<'a>(
    alloc: Global,
    p: &'a Clause,
    i: usize,
    j: usize,
) -> Result<Option<Bindings<'a>>, NoMemory>
    requires first { i < length p.now.literals }
    requires second { j < length p.now.literals }
    ensures { IfOk result (λ u. Answered (Factors p.now i j) (given_by p.now [] (Factor i j) u)) }
{
    if j <= i {
        return Ok(None);
    }
    let first = p.literals.at(i);
    let second = p.literals.at(j);
    if first.positive != second.positive {
        return Ok(None);
    }
    let unifier = unify_atoms(alloc, &first.atom, &second.atom)?;
    Ok(unifier)
}

/// The unifier of the sides of the negated equation `i`, which goes.
fn reflect_at<'a>(alloc: Global, p: &'a Clause, i: usize) -> Result<Option<Bindings<'a>>, NoMemory>
    requires { i < length p.now.literals }
    ensures { IfOk result (λ u. Answered (Reflects p.now i) (given_by p.now [] (Reflex i) u)) }
{
    match sides(p.literals.at(i), false) {
        None => Ok(None),
        Some((s, t)) => {
            let unifier = meet(alloc, s, t)?;
            Ok(unifier)
        }
    }
}

fn factor_literal<'a>(
    alloc: Global,
    p: &'a Clause,
    i: usize,
    out: &mut Rows<Finding<'a>>,
) -> Result<(), NoMemory>
    requires { i < length p.now.literals }
    ensures { OnOk result (Adds (AloneGives p.now) (factor_rules (length p.now.literals) i) (all_made p.now [] out.old) (all_made p.now [] out.new)) }
{
    for j in 0..p.literals.len() {
        let found = factor_at(alloc, p, i, j)?;
        add(
            out,
            Rule::Factor {
                i: i as u64,
                j: j as u64,
            },
            found,
        )?;
    }
    Ok(())
}

fn factor<'a>(alloc: Global, p: &'a Clause, out: &mut Rows<Finding<'a>>) -> Result<(), NoMemory>
    ensures { OnOk result (Adds (AloneGives p.now) (all_factor_rules p.now) (all_made p.now [] out.old) (all_made p.now [] out.new)) }
{
    for i in 0..p.literals.len() {
        factor_literal(alloc, p, i, out)?;
    }
    Ok(())
}

fn reflect<'a>(alloc: Global, p: &'a Clause, out: &mut Rows<Finding<'a>>) -> Result<(), NoMemory>
    ensures { OnOk result (Adds (AloneGives p.now) (all_reflex_rules p.now) (all_made p.now [] out.old) (all_made p.now [] out.new)) }
{
    for i in 0..p.literals.len() {
        let found = reflect_at(alloc, p, i)?;
        add(out, Rule::Reflex { i: i as u64 }, found)?;
    }
    Ok(())
}

/// The inferences of one clause in order, before their clauses are written: factoring, and then reflexivity.
pub fn find_alone<'a>(alloc: Global, p: &'a Clause) -> Result<Rows<Finding<'a>>, NoMemory>
    ensures inferences { IfOk result (λ found. Alone p.now (all_made p.now [] found)) }
    ensures placed { IfOk result (λ found. All (λ f. IsPlaced p.now [] f.rule) found) }
{
    let mut out = Rows::begin(alloc);
    factor(alloc, p, &mut out)?;
    reflect(alloc, p, &mut out)?;
    Ok(out)
}

/// The inferences of one clause, in order: factoring, and then reflexivity.
///
/// Two literals of one sign and kind that have a most general unifier, sides in order, give the clause without the
/// later one; a negated equation whose sides have one gives the rest. Each with the unifier put through it, and in
/// normal form.
pub fn alone(alloc: Global, p: &Clause) -> Result<Rows<Made>, NoMemory>
    ensures { IfOk result (λ made. Alone p.now made) }
{
    let found = find_alone(alloc, p)?;
    let made = write_alone(alloc, p, found)?;
    Ok(made)
}
