ghost use Rattle.std.specs.Prelude.{◌≡◌, ◌+◌, [], ◌∷◌, ◌++◌, List, Some, None, is_some, map, OnOk, OnErr, IfOk, IfSome};
ghost use Rattle.std.specs.Option.{option_map};
ghost use Rattle.theory_terms.specs.Words.{place};
ghost use Rattle.theory_terms.specs.Signature.{found};
ghost use Rattle.theory_terms.specs.Numbers.{AreNoted, type_at};
ghost use Rattle.hol_terms.specs.declared.ty.Ty.{Ty as HolTy};

use crate::numbered::Numbered;
use crate::{Decl, Names};
use hol_terms::Ty;
use std::alloc::Global;
use std::marker::Model;
use text_kit::{Bytes, NoMemory, Rows};

/// What is declared, with the numbers that the constants' types have in a table.
#[derive(Drop)]
pub(crate) struct Decls<'t> {
    types: Names<'t>,
    names: Names<'t>,
    consts: Rows<Decl>,
    numbers: Rows<u64>,
}

impl<'t> Model for Decls<'t> {
    ghost use Rattle.std.specs.Prelude.{◌≡◌, map, length};
    ghost use Rattle.std.specs.Coded.{codes};
    ghost use Rattle.hol_terms.specs.contracts.ty.Ty as ty;
    ghost use Rattle.theory_terms.specs.Numbers.{Noted};

    ghost Value = { Noted };

    ghost coded = { Prim.hlevel (codes, ty.the_row.coded) };

    ghost view = { λ k. record { declared = record { types = k.types; consts = k.consts }; numbers = k.numbers } };

    ghost invariant = { λ k. (k.names ≡ map (λ d. d.name) k.consts) × (length k.numbers ≡ length k.consts) };
}

impl<'t> Decls<'t> {
    /// Nothing but bool. It takes no memory.
    pub(crate) fn begin(alloc: Global) -> Decls<'t>
        ensures types { result.declared.types ≡ [] }
        ensures consts { result.declared.consts ≡ [] }
        ensures numbers { result.numbers ≡ [] }
    {
        Decls {
            types: Names::begin(alloc),
            names: Names::begin(alloc),
            consts: Rows::begin(alloc),
            numbers: Rows::begin(alloc),
        }
    }

    /// The number of a declared type among the base types.
    pub(crate) fn base_of(&self, name: &[u8]) -> Option<u32>
        ensures { result ≡ option_map (λ i. i + 1) (place name.now self.now.declared.types) }
    {
        match self.types.place(name) {
            None => None,
            Some(i) => Some(i + 1),
        }
    }

    /// Whether a constant of that name is declared.
    pub(crate) fn has_const(&self, name: &[u8]) -> bool
        ensures { result ≡ is_some (found name.now self.now.declared.consts) }
    {
        self.names.place(name).is_some()
    }

    /// The place and the type of a declared constant, with the type's number.
    pub(crate) fn const_of(&self, name: &[u8]) -> Option<(u32, &Ty, u64)>
        ensures found { option_map (λ v. (v.0, v.1.now)) result ≡ found name.now self.now.declared.consts }
        ensures numbered { (table : List HolTy) → AreNoted table self.now → IfSome result (λ v. type_at table v.2 ≡ Some v.1.now) }
    {
        match self.names.place(name) {
            None => None,
            Some(i) => match self.consts.get(i as usize) {
                None => None,
                Some(decl) => match self.numbers.get(i as usize) {
                    None => None,
                    Some(number) => Some((i, &decl.ty, *number)),
                },
            },
        }
    }

    /// Declares a type. A refused call leaves all as it was.
    pub(crate) fn add_type(&mut self, name: &'t [u8]) -> Result<(), NoMemory>
        requires { place name.now self.old.declared.types ≡ None }
        ensures types { OnOk result (self.new.declared.types ≡ self.old.declared.types ++ name.now ∷ []) }
        ensures consts { self.new.declared.consts ≡ self.old.declared.consts }
        ensures numbers { self.new.numbers ≡ self.old.numbers }
        ensures err { OnErr result (self.new ≡ self.old) }
    {
        self.types.add(name)
    }

    /// Declares a constant. A refused call leaves the declarations as they were.
    pub(crate) fn add_const(
        &mut self,
        alloc: Global,
        name: &'t [u8],
        typed: Numbered,
    ) -> Result<(), NoMemory>
        requires { found name.now self.old.declared.consts ≡ None }
        ensures types { self.new.declared.types ≡ self.old.declared.types }
        ensures consts { OnOk result (self.new.declared.consts ≡ self.old.declared.consts ++ record { name = name.now; ty = typed.ty } ∷ []) }
        ensures numbers { OnOk result (self.new.numbers ≡ self.old.numbers ++ typed.number ∷ []) }
        ensures err { OnErr result (self.new ≡ self.old) }
    {
        let name_bytes = Bytes::from_slice(alloc, name)?;
        self.numbers.push(typed.number)?;
        let decl = Decl {
            name: name_bytes,
            ty: typed.ty,
        };
        if let Err(NoMemory) = self.consts.push(decl) {
            let _ = self.numbers.pop();
            return Err(NoMemory);
        }
        match self.names.add(name) {
            Ok(()) => Ok(()),
            Err(NoMemory) => {
                let _ = self.consts.pop();
                let _ = self.numbers.pop();
                Err(NoMemory)
            }
        }
    }

    /// The names of the types, copied, and the constants.
    pub(crate) fn into_parts(self, alloc: Global) -> Result<(Rows<Bytes>, Rows<Decl>), NoMemory>
        ensures { IfOk result (λ p. (p.0 ≡ self.entry.declared.types) × (p.1 ≡ self.entry.declared.consts)) }
    {
        let types = self.types.copies(alloc)?;
        Ok((types, self.consts))
    }
}
