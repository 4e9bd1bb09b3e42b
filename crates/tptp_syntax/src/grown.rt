ghost use Rattle.std.specs.Prelude.{◌≡◌, IfOk};
ghost use Rattle.tptp_syntax.specs.Grammar.{join as join_of, couple as couple_of, quantified as quantified_of, equation as equation_of, truth as truth_of, closed};
ghost use Rattle.tptp_syntax.specs.inner.Machine.{bare};
ghost use Rattle.fo_terms.specs.declared.atom.Atom.TheVariants.{Holds};
ghost use Rattle.fo_terms.specs.declared.formula.FoFormula.TheVariants as formula;

use crate::{Chain, Pair, Quant};
use fo_terms::{Atom, FoFormula, FoTerm};
use std::alloc::Global;
use std::marker::Model;
use text_kit::{NoMemory, Shared};

/// The most levels of a formula's tree. What walks down a tree needs the machine's stack, which holds so many and more;
/// a formula that is deeper is want of memory.
const DEEPEST: u32 = 5_000;

/// A formula with the number of levels of its tree, which contracts see as the formula.
#[derive(Debug, Drop)]
pub(crate) struct Grown {
    formula: FoFormula,
    levels: u32,
}

impl Model for Grown {
    ghost use Rattle.fo_terms.specs.declared.formula.FoFormula.{FoFormula as Formula};
    ghost use Rattle.fo_terms.specs.contracts.formula.FoFormula as row;

    ghost Value = { Formula };

    ghost coded = { row.the_row.coded };

    ghost view = { λ g. g.formula };
}

impl Grown {
    fn leaf(formula: FoFormula) -> Grown
        ensures { result ≡ formula }
    {
        Grown { formula, levels: 1 }
    }

    /// The formula alone.
    pub(crate) fn into_formula(self) -> FoFormula
        ensures { result ≡ self }
    {
        let Grown { formula, levels: _ } = self;
        formula
    }
}

/// One level more than this one, where there may be one.
fn above(levels: u32) -> Result<u32, NoMemory> {
    if levels < DEEPEST {
        Ok(levels + 1)
    } else {
        Err(NoMemory)
    }
}

/// One level more than the two.
fn above_both(left: u32, right: u32) -> Result<u32, NoMemory> {
    if left < right {
        above(right)
    } else {
        above(left)
    }
}

pub(crate) fn truth(holds: bool) -> Grown
    ensures { result ≡ truth_of holds }
{
    if holds {
        Grown::leaf(FoFormula::True)
    } else {
        Grown::leaf(FoFormula::False)
    }
}

pub(crate) fn holds(term: FoTerm) -> Grown
    ensures { result ≡ formula.Atom (Holds term) }
{
    Grown::leaf(FoFormula::Atom(Atom::Holds(term)))
}

pub(crate) fn equation(
    alloc: Global,
    equal: bool,
    left: FoTerm,
    right: FoTerm,
) -> Result<Grown, NoMemory>
    ensures { IfOk result (λ g. g ≡ equation_of equal left right) }
{
    let atom = Grown::leaf(FoFormula::Atom(Atom::Eq(left, right)));
    if equal { Ok(atom) } else { not(alloc, atom) }
}

pub(crate) fn not(alloc: Global, a: Grown) -> Result<Grown, NoMemory>
    ensures { IfOk result (λ g. g ≡ formula.Not a) }
{
    let Grown { formula, levels } = a;
    let levels = above(levels)?;
    let inner = Shared::new(alloc, formula)?;
    Ok(Grown {
        formula: FoFormula::Not(inner),
        levels,
    })
}

pub(crate) fn quantified(alloc: Global, q: Quant, n: u64, a: Grown) -> Result<Grown, NoMemory>
    ensures { IfOk result (λ g. g ≡ quantified_of q n a) }
{
    let Grown { formula, levels } = a;
    let levels = above(levels)?;
    let inner = Shared::new(alloc, formula)?;
    let formula = match q {
        Quant::Each => FoFormula::Each(n, inner),
        Quant::One => FoFormula::One(n, inner),
    };
    Ok(Grown { formula, levels })
}

/// The formula for each value of the variables with numbers below `count`.
pub(crate) fn closed_over(alloc: Global, count: u64, a: Grown) -> Result<Grown, NoMemory>
    ensures { IfOk result (λ g. g ≡ closed count a) }
{
    let mut whole = a;
    let mut left = count;
    'variables: while left > 0 {
        left -= 1;
        whole = quantified(alloc, Quant::Each, left, whole)?;
    }
    Ok(whole)
}

pub(crate) fn join(alloc: Global, sign: Chain, a: Grown, b: Grown) -> Result<Grown, NoMemory>
    ensures { IfOk result (λ g. g ≡ join_of sign a b) }
{
    let levels = above_both(a.levels, b.levels)?;
    let left = Shared::new(alloc, a.into_formula())?;
    let right = Shared::new(alloc, b.into_formula())?;
    let formula = match sign {
        Chain::And => FoFormula::And(left, right),
        Chain::Or => FoFormula::Or(left, right),
    };
    Ok(Grown { formula, levels })
}

/// The formula without a negation around it.
fn coupled(alloc: Global, sign: Pair, a: Grown, b: Grown) -> Result<Grown, NoMemory>
    ensures { IfOk result (λ g. g ≡ bare sign a b) }
{
    let levels = above_both(a.levels, b.levels)?;
    let left = Shared::new(alloc, a.into_formula())?;
    let right = Shared::new(alloc, b.into_formula())?;
    let formula = match sign {
        Pair::Imp => FoFormula::Imp(left, right),
        Pair::Rev => FoFormula::Imp(right, left),
        Pair::Iff => FoFormula::Iff(left, right),
        Pair::Xor => FoFormula::Iff(left, right),
        Pair::Nor => FoFormula::Or(left, right),
        Pair::Nand => FoFormula::And(left, right),
    };
    Ok(Grown { formula, levels })
}

pub(crate) fn couple(alloc: Global, sign: Pair, a: Grown, b: Grown) -> Result<Grown, NoMemory>
    ensures { IfOk result (λ g. g ≡ couple_of sign a b) }
{
    let whole = coupled(alloc, sign, a, b)?;
    match sign {
        Pair::Imp => Ok(whole),
        Pair::Rev => Ok(whole),
        Pair::Iff => Ok(whole),
        Pair::Xor => not(alloc, whole),
        Pair::Nor => not(alloc, whole),
        Pair::Nand => not(alloc, whole),
    }
}
