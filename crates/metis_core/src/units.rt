ghost use Rattle.std.specs.Prelude.{◌≡◌, ◌↔◌, ◌⊎◌, [], ◌∷◌, IsTrue, IfOk, IfSome, OnOk};
ghost use Rattle.fo_terms.specs.declared.literal.Literal.{Literal};
ghost use Rattle.metis_core.specs.Units.{HoldsUnit, SubsumesSome};

use fo_cells::{Cells, FlatClause, put_term};
use fo_terms::{Atom, Clause, Literal};
use std::alloc::Global;
use text_kit::NoMemory;
use unit_tree::UnitTree;

/// Puts a literal into a clause of none. One that is refuted, or whose terms are too large for cells, is left out.
fn write(literal: &Literal, alloc: Global, out: &mut FlatClause) -> Result<(), NoMemory>
    requires { out.old ≡ [] }
    ensures { OnOk result ((out.new ≡ []) ⊎ (out.new ≡ literal.now ∷ [])) }
{
    match &literal.atom {
        Atom::Holds(t) => {
            let mut cells = Cells::begin(alloc);
            if !put_term(t, &mut cells)? {
                return Ok(());
            }
            out.add_holds(literal.positive, cells.as_slice())?;
            Ok(())
        }
        Atom::Eq(s, t) => {
            let mut left = Cells::begin(alloc);
            let mut right = Cells::begin(alloc);
            if !put_term(s, &mut left)? {
                return Ok(());
            }
            if !put_term(t, &mut right)? {
                return Ok(());
            }
            out.add_equation(literal.positive, left.as_slice(), right.as_slice())?;
            Ok(())
        }
    }
}

/// The clause as cells, where it is one literal and can be written so.
pub fn as_unit(clause: &Clause, alloc: Global) -> Result<Option<FlatClause>, NoMemory>
    ensures { IfOk result (λ made. IfSome made (λ unit. (l : Literal) × (unit ≡ l ∷ []) × (clause.now.literals ≡ l ∷ []))) }
{
    if clause.literals.len() != 1 {
        return Ok(None);
    }
    let mut unit = FlatClause::begin(alloc);
    write(clause.literals.at(0), alloc, &mut unit)?;
    if unit.len() != 1 {
        return Ok(None);
    }
    Ok(Some(unit))
}

/// Puts a unit into the tree, which is made where there is none.
pub fn put_unit(
    units: &mut Option<UnitTree>,
    alloc: Global,
    unit: &FlatClause,
) -> Result<(), NoMemory>
    requires { (l : Literal) × (unit.now ≡ l ∷ []) }
    ensures keeps { OnOk result ((m : Literal) → HoldsUnit units.old m → HoldsUnit units.new m) }
    ensures adds { OnOk result ((l m : Literal) → unit.now ≡ l ∷ [] → HoldsUnit units.new m → HoldsUnit units.old m ⊎ (m ≡ l)) }
    ensures held { OnOk result ((l : Literal) → unit.now ≡ l ∷ [] → HoldsUnit units.new l) }
{
    match units {
        Some(tree) => {
            tree.insert(unit)?;
            Ok(())
        }
        None => {
            let mut tree = UnitTree::begin(alloc)?;
            tree.insert(unit)?;
            *units = Some(tree);
            Ok(())
        }
    }
}

/// Whether a unit of the tree subsumes the clause. It takes no memory.
pub fn is_unit_subsumed(units: &Option<UnitTree>, c: &FlatClause) -> bool
    ensures { IsTrue result ↔ SubsumesSome units.now c.now }
{
    match units {
        Some(tree) => tree.subsumes(c),
        None => false,
    }
}
