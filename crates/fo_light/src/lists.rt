ghost use Rattle.std.specs.Prelude.{◌≡◌, ◌++◌, ◌∷◌, [], All, List, map, IfOk, OnOk};
ghost use Rattle.fo_infer.specs.declared.made.Made.{Made};
ghost use Rattle.fo_infer.specs.Inferences.{Alone, BetweenAt, renamed_apart};
ghost use Rattle.fo_infer.specs.inner.Places.{position_of};
ghost use Rattle.fo_infer.specs.inner.Findings.{IsPlaced, made_of, all_made};
ghost use Rattle.fo_light.specs.Light.{as_made, light};

use crate::FlatMade;
use crate::concluding::conclude_light;
use fo_cells::{Cells, FlatClause};
use fo_infer::{Finding, find_alone, find_between, may_infer};
use fo_terms::{Clause, Literal};
use std::alloc::Global;
use text_kit::{NoMemory, Rows};

/// Appends an inference, where its clause is light enough.
fn add_one<'a>(
    alloc: Global,
    p: &'a Clause,
    apart: &'a Rows<Literal>,
    found: Finding<'a>,
    cells: &mut Cells,
    flat: &mut FlatClause,
    out: &mut Rows<FlatMade>,
) -> Result<(), NoMemory>
    requires { IsPlaced p.now apart.now found.rule }
    ensures { OnOk result (map as_made out.new ≡ map as_made out.old ++ light (made_of p.now apart.now found.entry ∷ [])) }
{
    if !conclude_light(alloc, p, apart, &found, cells, flat)? {
        return Ok(());
    }
    let Finding { rule, unifier: _ } = found;
    out.push(FlatMade {
        clause: flat.copy(alloc)?,
        rule,
    })?;
    Ok(())
}

fn write_light<'a>(
    alloc: Global,
    p: &'a Clause,
    apart: &'a Rows<Literal>,
    found: Rows<Finding<'a>>,
) -> Result<Rows<FlatMade>, NoMemory>
    requires { All (λ f. IsPlaced p.now apart.now f.rule) found }
    ensures { IfOk result (λ made. map as_made made ≡ light (all_made p.now apart.now found.entry)) }
{
    let mut cells = Cells::begin(alloc);
    let mut flat = FlatClause::begin(alloc);
    let mut out = Rows::begin(alloc);
    for f in found.into_vec() {
        add_one(alloc, p, apart, f, &mut cells, &mut flat, &mut out)?;
    }
    Ok(out)
}

/// The inferences of two clauses whose clauses weigh at most 512, in order, their clauses as cells. `apart` are the right clause's literals
/// renamed apart.
pub fn between_light(
    alloc: Global,
    plain: bool,
    p: &Clause,
    q: &Clause,
    apart: &Rows<Literal>,
) -> Result<Rows<FlatMade>, NoMemory>
    requires { apart.now ≡ renamed_apart p.now q.now }
    ensures { IfOk result (λ made. (all : List Made) × BetweenAt (position_of plain) p.now q.now all × (map as_made made ≡ light all)) }
{
    if !may_infer(p, q) {
        return Ok(Rows::begin(alloc));
    }
    let found = find_between(alloc, plain, p, q, apart)?;
    let made = write_light(alloc, p, apart, found)?;
    Ok(made)
}

/// The inferences of one clause whose clauses weigh at most 512, in order, their clauses as cells.
pub fn alone_light(alloc: Global, p: &Clause) -> Result<Rows<FlatMade>, NoMemory>
    ensures { IfOk result (λ made. (all : List Made) × Alone p.now all × (map as_made made ≡ light all)) }
{
    let none = Rows::begin(alloc);
    let found = find_alone(alloc, p)?;
    let made = write_light(alloc, p, &none, found)?;
    Ok(made)
}
