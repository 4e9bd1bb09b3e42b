ghost use Rattle.std.specs.Prelude.{◌≡◌, ◌++◌, map, IfOk, OnOk};
ghost use Rattle.fol_encode.specs.Occurring.{signs_for};
ghost use Rattle.fol_encode.specs.Signs.{symbols_of};
ghost use Rattle.goal_search.specs.Encoded.{atoms_in, atoms, encoded_literal, encoded_clause, encoded};

use fo_terms::{Clause, Literal};
use fol_encode::{Signs, encode_atom, signs_of};
use formula_clauses::Clauses;
use hol_terms::{Sig, Term, TypedLiteral, copy};
use lambda_lift::Table;
use std::alloc::Global;
use text_kit::{NoMemory, Rows};

/// First-order clauses, and the signs that their symbols number.
#[derive(Drop)]
pub struct Encoded {
    pub signs: Signs,
    pub clauses: Rows<Clause>,
}

fn put_atoms(out: &mut Rows<Term>, literals: &[TypedLiteral]) -> Result<(), NoMemory>
    ensures { OnOk result (out.new ≡ out.old ++ atoms_in literals.now) }
{
    for literal in literals {
        out.push(copy(&literal.atom)?)?;
    }
    Ok(())
}

fn atoms_of(alloc: Global, clauses: &[Rows<TypedLiteral>]) -> Result<Rows<Term>, NoMemory>
    ensures { IfOk result (λ ts. ts ≡ atoms clauses.now) }
{
    let mut out = Rows::begin(alloc);
    for clause in clauses {
        put_atoms(&mut out, clause.as_slice())?;
    }
    Ok(out)
}

fn encode_literal(alloc: Global, signs: &Signs, l: &TypedLiteral) -> Result<Literal, NoMemory>
    ensures { IfOk result (λ r. r ≡ encoded_literal signs.now.signs l.now) }
{
    Ok(Literal {
        positive: l.positive,
        atom: encode_atom(alloc, signs, &l.atom)?,
    })
}

fn encode_clause(
    alloc: Global,
    signs: &Signs,
    literals: &[TypedLiteral],
) -> Result<Clause, NoMemory>
    ensures { IfOk result (λ c. c ≡ encoded_clause signs.now.signs literals.now) }
{
    let mut out = Rows::begin(alloc);
    for literal in literals {
        out.push(encode_literal(alloc, signs, literal)?)?;
    }
    Ok(Clause { literals: out })
}

fn encode_all(
    alloc: Global,
    signs: &Signs,
    clauses: &[Rows<TypedLiteral>],
) -> Result<Rows<Clause>, NoMemory>
    ensures { IfOk result (λ cs. cs ≡ encoded signs.now.signs clauses.now) }
{
    let mut out = Rows::begin(alloc);
    for clause in clauses {
        out.push(encode_clause(alloc, signs, clause.as_slice())?)?;
    }
    Ok(out)
}

/// Clauses over a table as first-order ones, over the signs that occur in them.
///
/// It takes time in proportion to the clauses, times the logarithm of the number of different symbols.
pub fn encode(
    alloc: Global,
    sig: &Sig,
    table: &Table,
    clauses: &Clauses,
) -> Result<Encoded, NoMemory>
    ensures signs { IfOk result (λ e. e.signs.signs ≡ signs_for sig.now table.now (atoms clauses.now)) }
    ensures symbols { IfOk result (λ e. e.signs.symbols ≡ symbols_of table.now e.signs.signs) }
    ensures clauses { IfOk result (λ e. e.clauses ≡ encoded e.signs.signs clauses.now) }
{
    let atoms = atoms_of(alloc, clauses.as_slice())?;
    let signs = signs_of(alloc, sig, table, &atoms)?;
    let clauses = encode_all(alloc, &signs, clauses.as_slice())?;
    Ok(Encoded { signs, clauses })
}
