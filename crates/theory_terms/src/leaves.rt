ghost use Rattle.std.specs.Prelude.{◌≡◌, IfOk};
ghost use Rattle.hol_terms.specs.declared.konst.Konst.TheVariants as konst;
ghost use Rattle.theory_terms.specs.inner.Leaves.{AreLeaves, IsSign, variable, declared};
ghost use Rattle.theory_terms.specs.Meanings.{operator_konst};

use hol_terms::{Konst, Term};
use std::alloc::Global;
use text_kit::{NoMemory, Rows, Shared};
use theory_syntax::Op;

/// The leaves of terms that a reading met. Each is held once, and all its places share it.
#[derive(Drop)]
pub(crate) struct Leaves {
    bound: Rows<Shared<Term>>,
    named: Rows<Shared<Term>>,
    imp: Option<Shared<Term>>,
    or: Option<Shared<Term>>,
    and: Option<Shared<Term>>,
    not: Option<Shared<Term>>,
    ghost bound_are: { AreLeaves variable bound },
    ghost named_are: { AreLeaves declared named },
    ghost imp_is: { IsSign konst.Imp imp },
    ghost or_is: { IsSign konst.Or or },
    ghost and_is: { IsSign konst.And and },
    ghost not_is: { IsSign konst.Not not },
}

/// The bound variable of this index.
#[tactic(auto, using(crate::proofs::Filled::one_more))]
fn variable_of(
    alloc: Global,
    held: &mut Rows<Shared<Term>>,
    index: u64,
) -> Result<Shared<Term>, NoMemory>
    requires { AreLeaves variable held.old }
    ensures is { IfOk result (λ t. t ≡ variable index) }
    ensures held { AreLeaves variable held.new }
{
    'more: while held.len() as u64 <= index {
        let next = Shared::new(alloc, Term::Bound(held.len() as u64))?;
        held.push(next)?;
    }
    held.at(index as usize).again()
}

/// The constant that is declared at this place.
#[tactic(auto, using(crate::proofs::Filled::one_more))]
fn constant_at(
    alloc: Global,
    held: &mut Rows<Shared<Term>>,
    place: u32,
) -> Result<Shared<Term>, NoMemory>
    requires { AreLeaves declared held.old }
    ensures is { IfOk result (λ t. t ≡ declared place) }
    ensures held { AreLeaves declared held.new }
{
    'more: while held.len() <= place as usize {
        let next = Shared::new(alloc, Term::Con(Konst::Named(held.len() as u32)))?;
        held.push(next)?;
    }
    held.at(place as usize).again()
}

/// The constant `k`, which is held from now on.
fn sign(alloc: Global, held: &mut Option<Shared<Term>>, k: Konst) -> Result<Shared<Term>, NoMemory>
    requires { IsSign k held.old }
    ensures is { IfOk result (λ t. t ≡ Term.Con k) }
    ensures held { IsSign k held.new }
{
    if let Some(term) = held {
        return term.again();
    }
    let term = Shared::new(alloc, Term::Con(k))?;
    *held = Some(term.again()?);
    Ok(term)
}

impl Leaves {
    /// No leaves. It takes no memory.
    pub(crate) fn begin(alloc: Global) -> Leaves {
        Leaves {
            bound: Rows::begin(alloc),
            named: Rows::begin(alloc),
            imp: None,
            or: None,
            and: None,
            not: None,
        }
    }

    /// The bound variable of this index.
    pub(crate) fn bound(&mut self, alloc: Global, index: u64) -> Result<Shared<Term>, NoMemory>
        ensures { IfOk result (λ t. t ≡ Term.Bound index) }
    {
        variable_of(alloc, &mut self.bound, index)
    }

    /// The constant that is declared at this place.
    pub(crate) fn named(&mut self, alloc: Global, place: u32) -> Result<Shared<Term>, NoMemory>
        ensures { IfOk result (λ t. t ≡ Term.Con (Konst.Named place)) }
    {
        constant_at(alloc, &mut self.named, place)
    }

    /// The constant of a sign between two formulas.
    pub(crate) fn operator(&mut self, alloc: Global, op: Op) -> Result<Shared<Term>, NoMemory>
        ensures { IfOk result (λ t. t ≡ Term.Con (operator_konst op)) }
    {
        match op {
            Op::Imp => sign(alloc, &mut self.imp, Konst::Imp),
            Op::Or => sign(alloc, &mut self.or, Konst::Or),
            Op::And => sign(alloc, &mut self.and, Konst::And),
        }
    }

    /// The constant of `~`.
    pub(crate) fn negation(&mut self, alloc: Global) -> Result<Shared<Term>, NoMemory>
        ensures { IfOk result (λ t. t ≡ Term.Con Konst.Not) }
    {
        sign(alloc, &mut self.not, Konst::Not)
    }
}
