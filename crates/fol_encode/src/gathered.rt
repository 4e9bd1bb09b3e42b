ghost use Rattle.std.specs.Prelude.{◌≡◌, [], ◌∷◌, ◌++◌, OnOk, OnErr, MatchOption};
ghost use Rattle.std.specs.BTreeSet.{replace_key};
ghost use Rattle.fol_encode.specs.Signs.{sign_key, sign_cmp};

use crate::sign::{Sign, key_of_sign};
use std::alloc::Global;
use std::collections::BTreeMap;
use std::marker::Model;
use text_kit::{NoMemory, Shared};

/// Signs, each once, in their order, which contracts see as their list.
#[derive(Drop)]
pub struct Gathered {
    tree: BTreeMap<Vec<u64>, Shared<Sign>>,
}

impl Model for Gathered {
    ghost use Rattle.std.specs.Prelude.{◌≡◌, List, map};
    ghost use Rattle.std.specs.Coded.{coded_list};
    ghost use Rattle.std.specs.BTreeMap.{keys, values};
    ghost use Rattle.fol_encode.specs.contracts.sign.Sign as sign;
    ghost use Rattle.fol_encode.specs.declared.sign.Sign.{Sign};
    ghost use Rattle.fol_encode.specs.Signs.{sign_key};

    ghost Value = { List Sign };

    ghost coded = { coded_list sign.the_row.coded };

    ghost view = { λ g. values g.tree };

    ghost invariant = { λ g. map (λ k. k.items) (keys g.tree) ≡ map sign_key (values g.tree) };
}

impl Gathered {
    /// No signs. It takes no memory.
    pub fn begin(alloc: Global) -> Gathered
        ensures { result ≡ [] }
    {
        Gathered {
            tree: BTreeMap::new(alloc),
        }
    }

    /// Puts a sign at its place, where it takes that of an equal one.
    pub fn add(&mut self, alloc: Global, s: Sign) -> Result<(), NoMemory>
        ensures { OnOk result (self.new ≡ replace_key sign_cmp self.old s) }
    {
        let key = key_of_sign(alloc, &s)?;
        let shared = Shared::new(alloc, s)?;
        match self.tree.insert(key, shared) {
            Ok(_) => Ok(()),
            Err(_) => Err(NoMemory),
        }
    }

    /// Takes the first sign.
    pub fn pop(&mut self) -> Option<Shared<Sign>>
        ensures { MatchOption result ((self.old ≡ []) × (self.new ≡ [])) (λ s. self.old ≡ s ∷ self.new) }
    {
        match self.tree.pop_first() {
            Some((_, s)) => Some(s),
            None => None,
        }
    }
}
