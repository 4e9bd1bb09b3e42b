ghost use Rattle.std.specs.Prelude.{◌≡◌, ◌≤◌, ◌<◌, [], ◌∷◌, IfOk, length};
ghost use Rattle.std.specs.List.{remove};
ghost use Rattle.std.specs.Prelude.{slice_set};
ghost use Rattle.fo_terms.specs.declared.term.FoTerm.{FoTerm};
ghost use Rattle.fo_terms.specs.declared.atom.Atom.TheVariants.{Holds, Eq};
ghost use Rattle.fo_terms.specs.Substitution.{put, put_literal, put_literals};
ghost use Rattle.fo_terms.specs.Normal.{is_refuted};
ghost use Rattle.fo_unify.specs.Lookup.{term_of};
ghost use Rattle.fo_cells.specs.Cells.{cells_of, IsTerm};
ghost use Rattle.fo_light.specs.Grown.{weight_of, Grown};

use crate::instance::put_instance;
use fo_cells::{Cell, Cells, FlatClause};
use fo_terms::{Atom, FoTerm, Literal};
use fo_unify::Bindings;
use std::alloc::Global;
use text_kit::NoMemory;

/// The most that a conclusion weighs.
pub const HEAVIEST: u64 = 512;

fn add_holds(positive: bool, term: &[Cell], out: &mut FlatClause) -> Result<bool, NoMemory>
    requires { IsTerm term.now }
    ensures { IfOk result (λ r. (t : FoTerm) → cells_of t ≡ term.now → Grown out.old (record { positive = positive; atom = Holds t } ∷ []) r out.new) }
{
    out.add_holds(positive, term)?;
    if out.weight() > HEAVIEST {
        return Ok(false);
    }
    Ok(true)
}

fn add_equation(
    positive: bool,
    left: &[Cell],
    right: &[Cell],
    out: &mut FlatClause,
) -> Result<bool, NoMemory>
    requires left { IsTerm left.now }
    requires right { IsTerm right.now }
    ensures { IfOk result (λ r. (s t : FoTerm) → cells_of s ≡ left.now → cells_of t ≡ right.now → Grown out.old (record { positive = positive; atom = Eq s t } ∷ []) r out.new) }
{
    out.add_equation(positive, left, right)?;
    if out.weight() > HEAVIEST {
        return Ok(false);
    }
    Ok(true)
}

/// Whether an equation whose sides have no room never holds.
fn never_holds<'a>(
    alloc: Global,
    unifier: &Bindings<'a>,
    positive: bool,
    s: &'a FoTerm,
    t: &'a FoTerm,
) -> Result<bool, NoMemory>
    ensures { IfOk result (λ r. r ≡ is_refuted (record { positive = positive; atom = Eq (put (term_of unifier.now) s.now) (put (term_of unifier.now) t.now) })) }
{
    if positive {
        return Ok(false);
    }
    let same = unifier.makes_same(alloc, s, t)?;
    Ok(same)
}

/// Adds a literal with the unifier put through it, unless the literals would weigh more than 512 then.
fn add_literal<'a>(
    alloc: Global,
    unifier: &Bindings<'a>,
    l: &'a Literal,
    cells: &mut Cells,
    out: &mut FlatClause,
) -> Result<bool, NoMemory>
    requires { weight_of out.old ≤ 512 }
    ensures { IfOk result (λ r. Grown out.old (put_literal (term_of unifier.now) l.now ∷ []) r out.new) }
{
    cells.clear();
    match &l.atom {
        Atom::Holds(t) => {
            if !put_instance(unifier, t, cells)? {
                return Ok(false);
            }
            let made = add_holds(l.positive, cells.as_slice(), out)?;
            Ok(made)
        }
        Atom::Eq(s, t) => {
            let made = add_sides(alloc, unifier, l.positive, s, t, cells, out)?;
            Ok(made)
        }
    }
}

fn add_sides<'a>(
    alloc: Global,
    unifier: &Bindings<'a>,
    positive: bool,
    s: &'a FoTerm,
    t: &'a FoTerm,
    cells: &mut Cells,
    out: &mut FlatClause,
) -> Result<bool, NoMemory>
    requires weight { weight_of out.old ≤ 512 }
    requires cells { cells.old ≡ [] }
    ensures { IfOk result (λ r. Grown out.old (record { positive = positive; atom = Eq (put (term_of unifier.now) s.now) (put (term_of unifier.now) t.now) } ∷ []) r out.new) }
{
    if !put_instance(unifier, s, cells)? {
        let never = never_holds(alloc, unifier, positive, s, t)?;
        return Ok(never);
    }
    let middle = cells.len();
    if !put_instance(unifier, t, cells)? {
        let never = never_holds(alloc, unifier, positive, s, t)?;
        return Ok(never);
    }
    let both = cells.as_slice();
    let made = add_equation(positive, &both[..middle], &both[middle..], out)?;
    Ok(made)
}

/// Adds literals with the unifier put through them, unless the literals would weigh more than 512 then.
fn add_all<'a>(
    alloc: Global,
    unifier: &Bindings<'a>,
    literals: &'a [Literal],
    cells: &mut Cells,
    out: &mut FlatClause,
) -> Result<bool, NoMemory>
    requires { weight_of out.old ≤ 512 }
    ensures { IfOk result (λ r. Grown out.old (put_literals (term_of unifier.now) literals.now) r out.new) }
{
    for l in literals {
        if !add_literal(alloc, unifier, l, cells, out)? {
            return Ok(false);
        }
    }
    Ok(true)
}

/// Adds all literals but one.
pub fn add_rest<'a>(
    alloc: Global,
    unifier: &Bindings<'a>,
    literals: &'a [Literal],
    skip: usize,
    cells: &mut Cells,
    out: &mut FlatClause,
) -> Result<bool, NoMemory>
    requires place { skip < length literals.now }
    requires weight { weight_of out.old ≤ 512 }
    ensures { IfOk result (λ r. Grown out.old (put_literals (term_of unifier.now) (remove literals.now skip)) r out.new) }
{
    if !add_all(alloc, unifier, &literals[..skip], cells, out)? {
        return Ok(false);
    }
    let made = add_all(alloc, unifier, &literals[skip + 1..], cells, out)?;
    Ok(made)
}

/// Adds literals with another one in the place of one of them.
pub fn add_changed<'a>(
    alloc: Global,
    unifier: &Bindings<'a>,
    literals: &'a [Literal],
    at: usize,
    by: &'a Literal,
    cells: &mut Cells,
    out: &mut FlatClause,
) -> Result<bool, NoMemory>
    requires place { at < length literals.now }
    requires weight { weight_of out.old ≤ 512 }
    ensures { IfOk result (λ r. Grown out.old (put_literals (term_of unifier.now) (slice_set literals.now at by.now)) r out.new) }
{
    if !add_all(alloc, unifier, &literals[..at], cells, out)? {
        return Ok(false);
    }
    if !add_literal(alloc, unifier, by, cells, out)? {
        return Ok(false);
    }
    let made = add_all(alloc, unifier, &literals[at + 1..], cells, out)?;
    Ok(made)
}
