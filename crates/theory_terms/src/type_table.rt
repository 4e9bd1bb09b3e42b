ghost use Rattle.std.specs.Prelude.{◌≡◌, [], ◌∷◌, ◌++◌, ◌+◌, ◌-◌, ◌<◌, ℕ, None, nat_lt, length, slice_get, position, if◌then◌else◌, IfOk, OnOk, OnErr};
ghost use Rattle.std.specs.Ordering.{is_eq};
ghost use Rattle.hol_terms.specs.Types.{function_ty};
ghost use Rattle.theory_terms.specs.Meanings.{target as target_of, operator_konst};
ghost use Rattle.theory_terms.specs.inner.Tables.{compared};
ghost use Rattle.theory_terms.specs.Numbers.{IsNumbered, Keeps, TellsNumbered};

use crate::keys::Keys;
use crate::leaves::Leaves;
use crate::numbered::Numbered;
use crate::{TheoryFault, TheoryKind};
use hol_terms::{Konst, Term, Ty, arrow, copy_ty};
use std::alloc::Global;
use std::marker::Model;
use text_kit::{NoMemory, Rows, Shared};
use theory_syntax::Op;

/// The number of the first function type; below are the base types, each by its own number.
const FIRST: u64 = 0x1_0000_0000;

/// The function types that a reading met, each once, so that types are compared by their numbers, and the leaves of terms
/// that it met. Contracts see the list of the types.
#[derive(Drop)]
pub(crate) struct TypeTable {
    sides: Keys<(u64, u64)>,
    types: Rows<Ty>,
    leaves: Leaves,
}

impl Model for TypeTable {
    ghost use Rattle.std.specs.Prelude.{List};
    ghost use Rattle.std.specs.Coded.{codes};
    ghost use Rattle.hol_terms.specs.contracts.ty.Ty as ty;
    ghost use Rattle.hol_terms.specs.declared.ty.Ty as declared;
    ghost use Rattle.theory_terms.specs.inner.Tables.{AreFunctions, AreApart};

    ghost Value = { List declared.Ty };

    ghost coded = { Prim.hlevel (codes, ty.the_row.coded) };

    ghost view = { λ t. t.types };

    ghost invariant = { λ t. AreFunctions t.types t.sides × AreApart t.sides };
}

/// The function type at a place of the table.
fn held(types: &Rows<Ty>, place: u32) -> Result<Numbered, NoMemory>
    requires { place < length types.now }
    ensures { IfOk result (λ t. (slice_get types.now place ≡ Some t.ty) × (t.number ≡ 4294967296 + place)) }
{
    Ok(Numbered {
        ty: copy_ty(types.at(place as usize))?,
        number: FIRST + u64::from(place),
    })
}

/// Appends a function type with the numbers of its sides. A refused call leaves both lists.
fn push(
    sides: &mut Keys<(u64, u64)>,
    types: &mut Rows<Ty>,
    key: (u64, u64),
    ty: Ty,
) -> Result<Numbered, NoMemory>
    requires { position (λ k. is_eq (compared key k)) sides.old ≡ None }
    ensures types { IfOk result (λ t. types.new ≡ types.old ++ ty ∷ []) }
    ensures sides { OnOk result (sides.new ≡ sides.old ++ key ∷ []) }
    ensures made { IfOk result (λ t. (t.ty ≡ ty) × (t.number ≡ 4294967296 + length sides.old)) }
    ensures err { OnErr result ((types.new ≡ types.old) × (sides.new ≡ sides.old)) }
{
    let number = FIRST + u64::from(sides.len());
    types.push(copy_ty(&ty)?)?;
    match sides.add(key) {
        Ok(()) => Ok(Numbered { ty, number }),
        Err(NoMemory) => {
            let _ = types.pop();
            Err(NoMemory)
        }
    }
}

fn function(alloc: Global, from: &Ty, to: &Ty) -> Result<Ty, NoMemory>
    ensures { IfOk result (λ t. t ≡ function_ty from.now to.now) }
{
    arrow(alloc, copy_ty(from)?, copy_ty(to)?)
}

/// The numbers of the sides of a function type; a base type has none.
fn sides_of(sides: &Keys<(u64, u64)>, number: u64) -> Option<(u64, u64)>
    ensures { result ≡ (if nat_lt number 4294967296 then None else slice_get sides.now (number - 4294967296)) }
{
    if number < FIRST {
        None
    } else {
        sides.as_slice().get((number - FIRST) as usize).copied()
    }
}

fn ill_typed(at: u64) -> TheoryFault
    ensures { result ≡ TheoryFault.At at TheoryKind.IllTyped }
{
    TheoryFault::At {
        at,
        kind: TheoryKind::IllTyped,
    }
}

impl TypeTable {
    /// No function types. It takes no memory.
    pub(crate) fn begin(alloc: Global) -> TypeTable
        ensures { result ≡ [] }
    {
        TypeTable {
            sides: Keys::begin(alloc),
            types: Rows::begin(alloc),
            leaves: Leaves::begin(alloc),
        }
    }

    /// The bound variable of this index.
    pub(crate) fn bound(&mut self, alloc: Global, index: u64) -> Result<Shared<Term>, NoMemory>
        ensures is { IfOk result (λ t. t ≡ Term.Bound index) }
        ensures same { self.new ≡ self.old }
    {
        self.leaves.bound(alloc, index)
    }

    /// The constant that is declared at this place.
    pub(crate) fn named(&mut self, alloc: Global, place: u32) -> Result<Shared<Term>, NoMemory>
        ensures is { IfOk result (λ t. t ≡ Term.Con (Konst.Named place)) }
        ensures same { self.new ≡ self.old }
    {
        self.leaves.named(alloc, place)
    }

    /// The constant of a sign between two formulas.
    pub(crate) fn operator(&mut self, alloc: Global, op: Op) -> Result<Shared<Term>, NoMemory>
        ensures is { IfOk result (λ t. t ≡ Term.Con (operator_konst op)) }
        ensures same { self.new ≡ self.old }
    {
        self.leaves.operator(alloc, op)
    }

    /// The constant of `~`.
    pub(crate) fn negation(&mut self, alloc: Global) -> Result<Shared<Term>, NoMemory>
        ensures is { IfOk result (λ t. t ≡ Term.Con Konst.Not) }
        ensures same { self.new ≡ self.old }
    {
        self.leaves.negation(alloc)
    }

    /// The functions from one type to another.
    pub(crate) fn function(
        &mut self,
        alloc: Global,
        from: &Numbered,
        to: &Numbered,
    ) -> Result<Numbered, NoMemory>
        requires from { IsNumbered self.old from.now }
        requires to { IsNumbered self.old to.now }
        ensures made { IfOk result (λ t. (t.ty ≡ function_ty from.now.ty to.now.ty) × IsNumbered self.new t) }
        ensures keeps { Keeps self.old self.new }
    {
        let key = (from.number, to.number);
        match self.sides.place(key) {
            Some(place) => held(&self.types, place),
            None => {
                let ty = function(alloc, &from.ty, &to.ty)?;
                push(&mut self.sides, &mut self.types, key, ty)
            }
        }
    }

    /// The same type with its number.
    pub(crate) fn number(&mut self, alloc: Global, ty: &Ty) -> Result<Numbered, NoMemory>
        ensures made { IfOk result (λ t. (t.ty ≡ ty.now) × IsNumbered self.new t) }
        ensures keeps { Keeps self.old self.new }
    {
        match ty {
            Ty::Base(n) => Ok(Numbered {
                ty: Ty::Base(*n),
                number: u64::from(*n),
            }),
            Ty::Arrow(a, b) => {
                let from = self.number(alloc, a.get())?;
                let to = self.number(alloc, b.get())?;
                self.function(alloc, &from, &to)
            }
        }
    }

    /// The type of a head, which begins at `head_at`, with an argument more.
    pub(crate) fn target(
        &self,
        head_at: u64,
        head: &Numbered,
        arg_at: u64,
        arg: &Numbered,
    ) -> Result<Numbered, TheoryFault>
        requires head { IsNumbered self.now head.now }
        requires arg { IsNumbered self.now arg.now }
        ensures { TellsNumbered (target_of head_at head.now.ty arg_at arg.now.ty) self.now result }
    {
        match &head.ty {
            Ty::Base(_) => Err(ill_typed(head_at)),
            Ty::Arrow(_, to) => match sides_of(&self.sides, head.number) {
                None => Err(ill_typed(head_at)),
                Some((from, into)) => {
                    if from == arg.number {
                        Ok(Numbered {
                            ty: copy_ty(to.get())?,
                            number: into,
                        })
                    } else {
                        Err(ill_typed(arg_at))
                    }
                }
            },
        }
    }
}
