ghost use Rattle.std.specs.Prelude.{◌≡◌, [], IfOk};
ghost use Rattle.hol_formulas.specs.Formulas.{formula_of};
ghost use Rattle.lambda_lift.specs.Scopes.{scope_types};
ghost use Rattle.fol_encode.specs.Encoding.{joined as joined_as, bound as bound_as, formula_encoded};

use crate::atom::encode_under;
use crate::signs::Signs;
use crate::term::depth;
use fo_terms::FoFormula;
use hol_formulas::{Formula, Junction, Quantifier, read};
use hol_terms::{Term, Ty};
use lambda_lift::Scope;
use std::alloc::Global;
use text_kit::{NoMemory, Shared};

fn joined(
    alloc: Global,
    j: Junction,
    left: FoFormula,
    right: FoFormula,
) -> Result<FoFormula, NoMemory>
    ensures { IfOk result (λ f. f ≡ joined_as j left right) }
{
    let left = Shared::new(alloc, left)?;
    let right = Shared::new(alloc, right)?;
    match j {
        Junction::And => Ok(FoFormula::And(left, right)),
        Junction::Or => Ok(FoFormula::Or(left, right)),
        Junction::Imp => Ok(FoFormula::Imp(left, right)),
        Junction::Iff => Ok(FoFormula::Iff(left, right)),
    }
}

fn bound(alloc: Global, q: Quantifier, n: u64, body: FoFormula) -> Result<FoFormula, NoMemory>
    ensures { IfOk result (λ f. f ≡ bound_as q n body) }
{
    let body = Shared::new(alloc, body)?;
    match q {
        Quantifier::All => Ok(FoFormula::Each(n, body)),
        Quantifier::Ex => Ok(FoFormula::One(n, body)),
    }
}

/// A formula under quantifiers.
fn encode_below(
    alloc: Global,
    signs: &Signs,
    scope: &Scope,
    f: &Formula,
) -> Result<FoFormula, NoMemory>
    ensures { IfOk result (λ e. e ≡ formula_encoded signs.now.signs f.now (scope_types scope.now)) }
{
    match f {
        Formula::True => Ok(FoFormula::True),
        Formula::False => Ok(FoFormula::False),
        Formula::Atom(t) => Ok(FoFormula::Atom(encode_under(alloc, signs, &*scope, t)?)),
        Formula::Not(g) => {
            let inner = encode_below(alloc, signs, &*scope, g.get())?;
            Ok(FoFormula::Not(Shared::new(alloc, inner)?))
        }
        Formula::Two(j, g, h) => {
            let left = encode_below(alloc, signs, &*scope, g.get())?;
            let right = encode_below(alloc, signs, &*scope, h.get())?;
            joined(alloc, *j, left, right)
        }
        Formula::Quantified(q, a, _, g) => {
            let n = depth(&*scope)?;
            let inner = encode_below(alloc, signs, &Scope::Under(&*a, &*scope), g.get())?;
            bound(alloc, *q, n, inner)
        }
    }
}

/// The encoding of a formula, which is to hold no lambda but those of quantifiers: each quantifier binds the variable
/// whose number is the number of quantifiers around it.
pub fn encode_formula(alloc: Global, signs: &Signs, formula: &Term) -> Result<FoFormula, NoMemory>
    ensures { IfOk result (λ e. e ≡ formula_encoded signs.now.signs (formula_of formula.now) []) }
{
    let f = read(alloc, formula)?;
    encode_below(alloc, signs, &Scope::Outside, f.get())
}
