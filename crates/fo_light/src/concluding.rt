ghost use Rattle.std.specs.Prelude.{◌≡◌, ◌<◌, ◌++◌, [], Some, length, slice_get, IfOk};
ghost use Rattle.std.specs.List.{remove};
ghost use Rattle.std.specs.Prelude.{slice_set};
ghost use Rattle.fo_terms.specs.declared.literal.Literal.{Literal};
ghost use Rattle.fo_terms.specs.Substitution.{put_literals};
ghost use Rattle.fo_unify.specs.Lookup.{term_of};
ghost use Rattle.fo_infer.specs.Inferences.{literal_replaced, put_in};
ghost use Rattle.fo_infer.specs.inner.Findings.{IsPlaced, left_by};
ghost use Rattle.fo_light.specs.Grown.{Grown, Concluded};

use crate::literals::{add_changed, add_rest};
use fo_cells::{Cells, FlatClause};
use fo_infer::{Finding, Rule, put_side, replace_in_atom, sides};
use fo_terms::{Clause, FoTerm, Literal};
use fo_unify::Bindings;
use std::alloc::Global;
use text_kit::{NoMemory, Rows};

/// The rest of one clause, and then of another one's literals.
fn add_both<'a>(
    alloc: Global,
    unifier: &Bindings<'a>,
    p: &'a Clause,
    i: usize,
    apart: &'a Rows<Literal>,
    j: usize,
    cells: &mut Cells,
    out: &mut FlatClause,
) -> Result<bool, NoMemory>
    requires left { i < length p.now.literals }
    requires right { j < length apart.now }
    requires empty { out.old ≡ [] }
    ensures { IfOk result (λ r. Grown out.old (put_literals (term_of unifier.now) (remove p.now.literals i ++ remove apart.now j)) r out.new) }
{
    if !add_rest(alloc, unifier, p.literals.as_slice(), i, cells, out)? {
        return Ok(false);
    }
    let made = add_rest(alloc, unifier, apart.as_slice(), j, cells, out)?;
    Ok(made)
}

/// The rest of one clause, and then another one's literals with another term at a path in one of them.
fn add_put<'a>(
    alloc: Global,
    unifier: &Bindings<'a>,
    p: &'a Clause,
    i: usize,
    apart: &'a Rows<Literal>,
    j: usize,
    path: &[u64],
    by: &FoTerm,
    cells: &mut Cells,
    out: &mut FlatClause,
) -> Result<bool, NoMemory>
    requires left { i < length p.now.literals }
    requires right { j < length apart.now }
    requires empty { out.old ≡ [] }
    ensures { IfOk result (λ r. (into : Literal) → slice_get apart.now j ≡ Some into → Grown out.old (put_literals (term_of unifier.now) (remove p.now.literals i ++ slice_set apart.now j (literal_replaced path.now by.now into))) r out.new) }
{
    if !add_rest(alloc, unifier, p.literals.as_slice(), i, cells, out)? {
        return Ok(false);
    }
    let into = apart.at(j);
    let changed = Literal {
        positive: into.positive,
        atom: replace_in_atom(alloc, &into.atom, path, by)?,
    };
    let made = add_changed(alloc, unifier, apart.as_slice(), j, &changed, cells, out)?;
    Ok(made)
}

fn add_conclusion<'a>(
    alloc: Global,
    p: &'a Clause,
    apart: &'a Rows<Literal>,
    found: &Finding<'a>,
    cells: &mut Cells,
    out: &mut FlatClause,
) -> Result<bool, NoMemory>
    requires placed { IsPlaced p.now apart.now found.now.rule }
    requires empty { out.old ≡ [] }
    ensures { IfOk result (λ r. Grown out.old (put_literals (term_of found.now.unifier) (left_by p.now apart.now found.now.rule)) r out.new) }
{
    match &found.rule {
        Rule::Resolve { i, j } => {
            let made = add_both(
                alloc,
                &found.unifier,
                p,
                *i as usize,
                apart,
                *j as usize,
                cells,
                out,
            )?;
            Ok(made)
        }
        Rule::Para {
            i,
            swapped,
            j,
            path,
        } => match sides(p.literals.at(*i as usize), true) {
            None => unreachable!(),
            Some((a, b)) => {
                let by = put_side(*swapped, a, b);
                let made = add_put(
                    alloc,
                    &found.unifier,
                    p,
                    *i as usize,
                    apart,
                    *j as usize,
                    path.as_slice(),
                    by,
                    cells,
                    out,
                )?;
                Ok(made)
            }
        },
        Rule::Factor { i: _, j } => {
            let made = add_rest(
                alloc,
                &found.unifier,
                p.literals.as_slice(),
                *j as usize,
                cells,
                out,
            )?;
            Ok(made)
        }
        Rule::Reflex { i } => {
            let made = add_rest(
                alloc,
                &found.unifier,
                p.literals.as_slice(),
                *i as usize,
                cells,
                out,
            )?;
            Ok(made)
        }
    }
}

/// Writes the clause that an inference gives, in normal form, in place of what `out` holds, where it weighs at most 512; `false` where it
/// is heavier.
///
/// It stops once that is known. `cells` is room that is used again from call to call.
pub fn conclude_light<'a>(
    alloc: Global,
    p: &'a Clause,
    apart: &'a Rows<Literal>,
    found: &Finding<'a>,
    cells: &mut Cells,
    out: &mut FlatClause,
) -> Result<bool, NoMemory>
    requires { IsPlaced p.now apart.now found.now.rule }
    ensures { IfOk result (λ r. Concluded (put_literals (term_of found.now.unifier) (left_by p.now apart.now found.now.rule)) r out.new) }
{
    out.clear();
    if !add_conclusion(alloc, p, apart, found, cells, out)? {
        return Ok(false);
    }
    out.number()?;
    Ok(true)
}
