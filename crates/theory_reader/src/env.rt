ghost use Rattle.std.specs.Prelude.{◌≡◌, ◌<◌, ◌≤◌, ◌^◌, ◌+◌, ◌++◌, length, map, IfOk, OnOk};
ghost use Rattle.theory_terms.specs.Signature.{sig_of};
ghost use Rattle.theory_reader.specs.Sound.{seen_from};
ghost use Rattle.theory_reader.specs.Seen.{IsEnvOf};

use crate::{Fact, Goal, Theory};
use hol_terms::{Env, Sig, Term, Ty, copy, copy_ty};
use std::alloc::Global;
use text_kit::{Bytes, NoMemory, Rows};
use theory_terms::Decl;

fn const_types(alloc: Global, consts: &[Decl]) -> Result<Rows<Ty>, NoMemory>
    ensures { IfOk result (λ out. out ≡ map (λ c. c.ty) consts.now) }
{
    let mut out = Rows::begin(alloc);
    for c in consts {
        out.push(copy_ty(&c.ty)?)?;
    }
    Ok(out)
}

fn put_formulas(out: &mut Rows<Term>, facts: &[Fact]) -> Result<(), NoMemory>
    ensures { OnOk result (out.new ≡ out.old ++ map (λ f. f.formula) facts.now) }
{
    for f in facts {
        out.push(copy(&f.formula)?)?;
    }
    Ok(())
}

fn signature(alloc: Global, types: &Rows<Bytes>, consts: &Rows<Decl>) -> Result<Sig, NoMemory>
    requires { 1 + length types.now < 2 ^ 32 }
    ensures { IfOk result (λ s. s ≡ sig_of (record { types = types.now; consts = consts.now })) }
{
    let consts = const_types(alloc, consts.as_slice())?;
    Ok(Sig {
        types: 1 + types.len() as u32,
        consts,
        aux: Rows::begin(alloc),
    })
}

/// The formulas that a goal is proved from.
fn formulas(alloc: Global, facts: &[Fact], goal: &Goal) -> Result<Rows<Term>, NoMemory>
    requires { goal.now.before ≤ length facts.now }
    ensures { IfOk result (λ out. out ≡ map (λ f. f.formula) (seen_from facts.now goal.now)) }
{
    let mut out = Rows::begin(alloc);
    put_formulas(&mut out, &facts[..goal.before as usize])?;
    put_formulas(&mut out, goal.assumes.as_slice())?;
    Ok(out)
}

impl Theory {
    /// What the goal with this number is proved from: the signature, the facts before it and then its assumptions, and
    /// its formula.
    pub fn env(&self, alloc: Global, goal: u32) -> Result<Env, NoMemory>
        requires { goal < length self.now.goals }
        ensures { IfOk result (IsEnvOf self.now goal) }
    {
        let stated = self.goals.at(goal as usize);
        let sig = signature(alloc, &self.types, &self.consts)?;
        let facts = formulas(alloc, self.facts.as_slice(), stated)?;
        let formula = copy(&stated.formula)?;
        Ok(Env {
            sig,
            facts,
            goal: formula,
        })
    }
}
