ghost use Rattle.std.specs.Prelude.{◌≡◌, ◌<◌, ◌++◌, [], All, Some, length, slice_get, slice_set, IfOk};
ghost use Rattle.std.specs.List.{remove};
ghost use Rattle.fo_infer.specs.Inferences.{conclusion, literal_replaced, put_in};
ghost use Rattle.fo_infer.specs.inner.Findings.{IsPlaced, left_by, all_made};

use crate::concluding::{conclude_alone, conclude_pair, push_rest};
use crate::paramodulating::push_changed;
use crate::paths::replace_in_atom;
use crate::reading::sides;
use crate::{Finding, Made, Rule};
use fo_terms::{Clause, FoTerm, Literal};
use fo_unify::Bind;
use std::alloc::Global;
use text_kit::{NoMemory, Rows};

/// The side of an equation that is put in the place of the other one.
pub fn put_side<'a>(swapped: bool, a: &'a FoTerm, b: &'a FoTerm) -> &'a FoTerm
    ensures { result.now ≡ put_in swapped a.now b.now }
{
    if swapped { a } else { b }
}

/// The rest of the left clause, and the right one with another term at a path, the unifier put through both.
fn conclude_changed(
    alloc: Global,
    binds: &[Bind],
    p: &Clause,
    i: usize,
    apart: &Rows<Literal>,
    j: usize,
    path: &[u64],
    by: &FoTerm,
) -> Result<Clause, NoMemory>
    requires left { i < length p.now.literals }
    requires right { j < length apart.now }
    ensures { IfOk result (λ c. (into : Literal) → slice_get apart.now j ≡ Some into → c ≡ conclusion binds.now (remove p.now.literals i ++ slice_set apart.now j (literal_replaced path.now by.now into))) }
{
    let into = apart.at(j);
    let mut literals = Rows::begin(alloc);
    push_rest(alloc, &*binds, p.literals.as_slice(), i, &mut literals)?;
    let changed = Literal {
        positive: into.positive,
        atom: replace_in_atom(alloc, &into.atom, path, by)?,
    };
    push_changed(alloc, &*binds, apart.as_slice(), j, changed, &mut literals)?;
    let clause = Clause { literals }.normal(alloc)?;
    Ok(clause)
}

/// The clause that a rule gives with its unifier.
fn conclude(
    alloc: Global,
    binds: &[Bind],
    p: &Clause,
    apart: &Rows<Literal>,
    rule: &Rule,
) -> Result<Clause, NoMemory>
    requires { IsPlaced p.now apart.now rule.now }
    ensures { IfOk result (λ c. c ≡ conclusion binds.now (left_by p.now apart.now rule.now)) }
{
    match rule {
        Rule::Resolve { i, j } => {
            let clause = conclude_pair(alloc, binds, p, *i as usize, apart, *j as usize)?;
            Ok(clause)
        }
        Rule::Para {
            i,
            swapped,
            j,
            path,
        } => match sides(p.literals.at(*i as usize), true) {
            None => unreachable!(),
            Some((a, b)) => {
                let by = put_side(*swapped, a, b);
                let clause = conclude_changed(
                    alloc,
                    binds,
                    p,
                    *i as usize,
                    apart,
                    *j as usize,
                    path.as_slice(),
                    by,
                )?;
                Ok(clause)
            }
        },
        Rule::Factor { i: _, j } => {
            let clause = conclude_alone(alloc, binds, p, *j as usize)?;
            Ok(clause)
        }
        Rule::Reflex { i } => {
            let clause = conclude_alone(alloc, binds, p, *i as usize)?;
            Ok(clause)
        }
    }
}

/// Writes the clauses of all inferences that were found.
pub fn write_all(
    alloc: Global,
    p: &Clause,
    apart: &Rows<Literal>,
    found: Rows<Finding>,
) -> Result<Rows<Made>, NoMemory>
    requires { All (λ f. IsPlaced p.now apart.now f.rule) found }
    ensures { IfOk result (λ made. made ≡ all_made p.now apart.now found.entry) }
{
    let mut out = Rows::begin(alloc);
    for f in found.into_vec() {
        let Finding { rule, unifier } = f;
        let binds = unifier.solved(alloc)?;
        let clause = conclude(alloc, binds.as_slice(), &*p, &*apart, &rule)?;
        out.push(Made { clause, rule })?;
    }
    Ok(out)
}

/// The same of inferences of one clause.
pub fn write_alone(alloc: Global, p: &Clause, found: Rows<Finding>) -> Result<Rows<Made>, NoMemory>
    requires { All (λ f. IsPlaced p.now [] f.rule) found }
    ensures { IfOk result (λ made. made ≡ all_made p.now [] found.entry) }
{
    let none = Rows::begin(alloc);
    let made = write_all(alloc, p, &none, found)?;
    Ok(made)
}
