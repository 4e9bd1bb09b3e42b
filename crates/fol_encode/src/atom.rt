ghost use Rattle.std.specs.Prelude.{◌≡◌, [], IfOk};
ghost use Rattle.lambda_lift.specs.Scopes.{scope_types};
ghost use Rattle.fol_encode.specs.Encoding.{atom_encoded};

use crate::signs::Signs;
use crate::term::encode;
use fo_terms::Atom;
use hol_formulas::sides_of;
use hol_terms::Term;
use lambda_lift::Scope;
use std::alloc::Global;
use text_kit::NoMemory;

/// An atom under quantifiers.
pub fn encode_under(alloc: Global, signs: &Signs, scope: &Scope, t: &Term) -> Result<Atom, NoMemory>
    ensures { IfOk result (λ a. a ≡ atom_encoded signs.now.signs t.now (scope_types scope.now)) }
{
    match sides_of(t) {
        Some(e) => {
            let left = encode(alloc, signs, &*scope, e.left)?;
            Ok(Atom::Eq(left, encode(alloc, signs, &*scope, e.right)?))
        }
        None => Ok(Atom::Holds(encode(alloc, signs, &*scope, t)?)),
    }
}

/// The encoding of an atom, which is to hold no lambda: an equation at another type than bool by its sides, another atom
/// as a term that holds.
///
/// Where the term has lambdas or a sign that isn't among the signs, the clause says what comes; it stands for nothing then.
pub fn encode_atom(alloc: Global, signs: &Signs, t: &Term) -> Result<Atom, NoMemory>
    ensures { IfOk result (λ a. a ≡ atom_encoded signs.now.signs t.now []) }
{
    encode_under(alloc, signs, &Scope::Outside, t)
}
