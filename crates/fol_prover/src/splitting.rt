ghost use Rattle.std.specs.Prelude.{◌≡◌, IfOk};
ghost use Rattle.fol_prover.specs.Proving.{inputs_of, sources_of};

use fo_terms::Clause;
use fol_cnf::NamedClause;
use std::alloc::Global;
use text_kit::{NoMemory, Rows};

/// Clauses without their statements, and the statement of each.
#[derive(Drop)]
pub(crate) struct Split {
    pub inputs: Rows<Clause>,
    pub sources: Rows<u32>,
}

/// Takes clauses and their statements apart.
pub(crate) fn split_clauses(alloc: Global, clauses: Rows<NamedClause>) -> Result<Split, NoMemory>
    ensures { IfOk result (λ s. (s.inputs ≡ inputs_of clauses) × (s.sources ≡ sources_of clauses)) }
{
    let mut inputs = Rows::begin(alloc);
    let mut sources = Rows::begin(alloc);
    for c in clauses.into_vec() {
        sources.push(c.statement)?;
        inputs.push(c.clause)?;
    }
    Ok(Split { inputs, sources })
}
