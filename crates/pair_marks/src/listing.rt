ghost use Rattle.std.specs.Prelude.{◌≡◌, ◌++◌, IfOk, OnOk};
ghost use Rattle.std.specs.List.{flat_map};
ghost use Rattle.pair_marks.specs.Marking.{positive_needs, side_needs};

use crate::marks::{Marks, need_of};
use crate::tops::top_of;
use fo_terms::{Atom, Literal};
use std::alloc::Global;
use text_kit::{NoMemory, Rows};

fn push_positive(l: &Literal, out: &mut Rows<Marks>) -> Result<(), NoMemory>
    ensures { OnOk result (out.new ≡ out.old ++ positive_needs l.now) }
{
    if !l.positive {
        return Ok(());
    }
    match &l.atom {
        Atom::Holds(t) => out.push(need_of(top_of(t))),
        Atom::Eq(_, _) => Ok(()),
    }
}

/// What the terms of the positive literals that are no equations need.
pub(crate) fn positives_of(alloc: Global, literals: &[Literal]) -> Result<Rows<Marks>, NoMemory>
    ensures { IfOk result (λ needs. needs ≡ flat_map positive_needs literals.now) }
{
    let mut out = Rows::begin(alloc);
    for l in literals {
        push_positive(l, &mut out)?;
    }
    Ok(out)
}

fn push_sides(l: &Literal, out: &mut Rows<Marks>) -> Result<(), NoMemory>
    ensures { OnOk result (out.new ≡ out.old ++ side_needs l.now) }
{
    if !l.positive {
        return Ok(());
    }
    match &l.atom {
        Atom::Holds(_) => Ok(()),
        Atom::Eq(s, t) => {
            out.push(need_of(top_of(s)))?;
            out.push(need_of(top_of(t)))
        }
    }
}

/// What the sides of the positive equations need.
pub(crate) fn sides_of(alloc: Global, literals: &[Literal]) -> Result<Rows<Marks>, NoMemory>
    ensures { IfOk result (λ needs. needs ≡ flat_map side_needs literals.now) }
{
    let mut out = Rows::begin(alloc);
    for l in literals {
        push_sides(l, &mut out)?;
    }
    Ok(out)
}
