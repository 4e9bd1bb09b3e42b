ghost use Rattle.std.specs.Prelude.{◌≡◌, [], ◌∷◌, ◌++◌, ℕ, Some, None, length, position, IfOk, OnOk, OnErr};
ghost use Rattle.hol_terms.specs.Types.{is_ty};
ghost use Rattle.lambda_lift.specs.Keys.{ty_key};
ghost use Rattle.tptp_print.specs.Numbers.{number_in, with_type};

use hol_terms::{Ty, copy_ty};
use lambda_lift::{KeySet, key_of_ty};
use std::alloc::Global;
use std::marker::Model;
use text_kit::{NoMemory, Rows};

/// The types that have numbers, each once, in the order of their numbers, which contracts see as their list. A type is
/// found by hashing, whatever the number of them.
#[derive(Drop)]
pub struct TypeNumbers {
    keys: KeySet,
    types: Rows<Ty>,
}

impl Model for TypeNumbers {
    ghost use Rattle.std.specs.Prelude.{◌≡◌, List, map};
    ghost use Rattle.std.specs.Coded.{coded_list};
    ghost use Rattle.hol_terms.specs.contracts.ty.Ty as ty;
    ghost use Rattle.hol_terms.specs.declared.ty.Ty.{Ty};
    ghost use Rattle.lambda_lift.specs.Keys.{ty_key};

    ghost Value = { List Ty };

    ghost coded = { coded_list ty.the_row.coded };

    ghost view = { λ t. t.types };

    ghost invariant = { λ t. t.keys ≡ map ty_key t.types };
}

impl TypeNumbers {
    /// No types. It takes no memory.
    pub fn begin(alloc: Global) -> TypeNumbers
        ensures { result ≡ [] }
    {
        TypeNumbers {
            keys: KeySet::begin(alloc),
            types: Rows::begin(alloc),
        }
    }

    /// The number of a type: a type that has none gets the next.
    pub fn number(&mut self, a: &Ty) -> Result<u64, NoMemory>
        ensures number { IfOk result (λ k. k ≡ number_in self.old a.now) }
        ensures types { OnOk result (self.new ≡ with_type self.old a.now) }
    {
        let key = key_of_ty(self.types.allocator(), a)?;
        match self.keys.place(&key) {
            Some(k) => Ok(k),
            None => self.append(key, copy_ty(a)?),
        }
    }

    /// Appends a type with its key, which isn't there yet.
    fn append(&mut self, key: Vec<u64>, a: Ty) -> Result<u64, NoMemory>
        requires key { key.items ≡ ty_key a }
        requires new { position (is_ty a) self.old ≡ None }
        ensures number { IfOk result (λ k. k ≡ length self.old) }
        ensures types { OnOk result (self.new ≡ self.old ++ a ∷ []) }
        ensures err { OnErr result (self.new ≡ self.old) }
    {
        let number = self.types.len();
        self.types.push(a)?;
        match self.keys.add(key) {
            Ok(()) => Ok(number as u64),
            Err(NoMemory) => {
                let _ = self.types.pop();
                Err(NoMemory)
            }
        }
    }
}
