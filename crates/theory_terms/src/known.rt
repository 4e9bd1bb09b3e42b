ghost use Rattle.std.specs.Prelude.{◌≡◌, ◌+◌, [], ◌∷◌, ◌++◌, None, is_some, OnOk, OnErr, IfOk};
ghost use Rattle.std.specs.Option.{option_map};
ghost use Rattle.theory_terms.specs.Words.{place};
ghost use Rattle.theory_terms.specs.Signature.{found};

use crate::Decl;
use crate::decls::Decls;
use crate::type_table::TypeTable;
use hol_terms::Ty;
use std::alloc::Global;
use std::marker::Model;
use text_kit::{Bytes, NoMemory, Rows};

/// What a theory has declared so far: its types and its constants.
///
/// The type at place i is base type i + 1; base type 0 is bool. A constant's number is its place. A reading numbers the
/// types that it meets in a table of its own, which no contract sees.
#[derive(Drop)]
pub struct Known<'t> {
    pub(crate) decls: Decls<'t>,
    pub(crate) table: TypeTable,
}

impl<'t> Model for Known<'t> {
    ghost use Rattle.std.specs.Coded.{codes};
    ghost use Rattle.hol_terms.specs.contracts.ty.Ty as ty;
    ghost use Rattle.theory_terms.specs.Signature.{Declared};
    ghost use Rattle.theory_terms.specs.Numbers.{AreNoted};

    ghost Value = { Declared };

    ghost coded = { Prim.hlevel (codes, ty.the_row.coded) };

    ghost view = { λ k. k.decls.declared };

    ghost invariant = { λ k. AreNoted k.table k.decls };
}

impl<'t> Known<'t> {
    /// Nothing but bool. It takes no memory.
    pub fn begin(alloc: Global) -> Known<'t>
        ensures types { result.types ≡ [] }
        ensures consts { result.consts ≡ [] }
    {
        Known {
            decls: Decls::begin(alloc),
            table: TypeTable::begin(alloc),
        }
    }

    /// The number of a declared type among the base types.
    pub fn base_of(&self, name: &[u8]) -> Option<u32>
        ensures { result ≡ option_map (λ i. i + 1) (place name.now self.now.types) }
    {
        self.decls.base_of(name)
    }

    /// Whether a constant of that name is declared.
    pub fn has_const(&self, name: &[u8]) -> bool
        ensures { result ≡ is_some (found name.now self.now.consts) }
    {
        self.decls.has_const(name)
    }

    /// Declares a type. A refused call leaves all as it was.
    pub fn add_type(&mut self, name: &'t [u8]) -> Result<(), NoMemory>
        requires { place name.now self.old.types ≡ None }
        ensures types { OnOk result (self.new.types ≡ self.old.types ++ name.now ∷ []) }
        ensures consts { self.new.consts ≡ self.old.consts }
        ensures err { OnErr result (self.new ≡ self.old) }
    {
        self.decls.add_type(name)
    }

    /// Declares a constant. A refused call leaves the declarations as they were.
    pub fn add_const(&mut self, alloc: Global, name: &'t [u8], ty: &Ty) -> Result<(), NoMemory>
        requires { found name.now self.old.consts ≡ None }
        ensures types { self.new.types ≡ self.old.types }
        ensures consts { OnOk result (self.new.consts ≡ self.old.consts ++ record { name = name.now; ty = ty.now } ∷ []) }
        ensures err { OnErr result (self.new ≡ self.old) }
    {
        let typed = self.table.number(alloc, ty)?;
        self.decls.add_const(alloc, name, typed)
    }

    /// The names of the types, copied, and the constants.
    pub fn into_parts(self, alloc: Global) -> Result<(Rows<Bytes>, Rows<Decl>), NoMemory>
        ensures { IfOk result (λ p. (p.0 ≡ self.entry.types) × (p.1 ≡ self.entry.consts)) }
    {
        self.decls.into_parts(alloc)
    }
}
