ghost use Rattle.std.specs.Prelude.{◌≡◌};

use std::marker::Model;
use theory_terms::Names;

/// The names that a part of a proof text may use: base types, constants and facts, each in a hash table.
#[derive(Drop)]
pub struct Lookup<'t> {
    types: Names<'t>,
    consts: Names<'t>,
    facts: Names<'t>,
}

impl<'t> Model for Lookup<'t> {
    ghost use Rattle.proof_syntax.specs.Names as names;

    ghost Value = { names.Names };

    ghost view = { λ l. record { types = l.types; consts = l.consts; facts = l.facts } };
}

impl<'t> Lookup<'t> {
    /// These names together. The first type is bool.
    pub fn new(types: Names<'t>, consts: Names<'t>, facts: Names<'t>) -> Lookup<'t>
        ensures types { result.types ≡ types.entry }
        ensures consts { result.consts ≡ consts.entry }
        ensures facts { result.facts ≡ facts.entry }
    {
        Lookup {
            types,
            consts,
            facts,
        }
    }

    /// The base types.
    pub fn types(&self) -> &Names<'t>
        ensures { result.now ≡ self.now.types }
    {
        &self.types
    }

    /// The constants.
    pub fn consts(&self) -> &Names<'t>
        ensures { result.now ≡ self.now.consts }
    {
        &self.consts
    }

    /// The facts.
    pub fn facts(&self) -> &Names<'t>
        ensures { result.now ≡ self.now.facts }
    {
        &self.facts
    }
}
