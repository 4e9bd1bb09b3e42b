ghost use Rattle.std.specs.Prelude.{◌≡◌, ◌<◌, ◌++◌, length, IfOk, OnOk};
ghost use Rattle.std.specs.List.{remove};
ghost use Rattle.fo_terms.specs.Substitution.{put_atom, put_literals};
ghost use Rattle.fo_unify.specs.Lookup.{term_of};
ghost use Rattle.fo_infer.specs.Inferences.{conclusion};

use fo_terms::{Atom, Clause, Literal};
use fo_unify::{Bind, apply};
use std::alloc::Global;
use text_kit::{NoMemory, Rows};

/// The atom with the substitution put through it.
fn apply_atom(alloc: Global, binds: &[Bind], a: &Atom) -> Result<Atom, NoMemory>
    ensures { IfOk result (λ b. b ≡ put_atom (term_of binds.now) a.now) }
{
    match a {
        Atom::Holds(t) => Ok(Atom::Holds(apply(alloc, binds, t)?)),
        Atom::Eq(s, t) => Ok(Atom::Eq(apply(alloc, &*binds, s)?, apply(alloc, &*binds, t)?)),
    }
}

/// Adds literals with the substitution put through them.
pub fn push_put(
    alloc: Global,
    binds: &[Bind],
    literals: &[Literal],
    out: &mut Rows<Literal>,
) -> Result<(), NoMemory>
    ensures { OnOk result (out.new ≡ out.old ++ put_literals (term_of binds.now) literals.now) }
{
    for l in literals {
        out.push(Literal {
            positive: l.positive,
            atom: apply_atom(alloc, &*binds, &l.atom)?,
        })?;
    }
    Ok(())
}

/// Adds all literals but one, with the substitution put through them.
pub fn push_rest(
    alloc: Global,
    binds: &[Bind],
    literals: &[Literal],
    skip: usize,
    out: &mut Rows<Literal>,
) -> Result<(), NoMemory>
    requires { skip < length literals.now }
    ensures { OnOk result (out.new ≡ out.old ++ put_literals (term_of binds.now) (remove literals.now skip)) }
{
    push_put(alloc, &*binds, &literals[..skip], out)?;
    push_put(alloc, &*binds, &literals[skip + 1..], out)?;
    Ok(())
}

/// A clause without one literal, with the unifier put through it.
pub fn conclude_alone(
    alloc: Global,
    binds: &[Bind],
    p: &Clause,
    i: usize,
) -> Result<Clause, NoMemory>
    requires { i < length p.now.literals }
    ensures { IfOk result (λ c. c ≡ conclusion binds.now (remove p.now.literals i)) }
{
    let mut literals = Rows::begin(alloc);
    push_rest(alloc, binds, p.literals.as_slice(), i, &mut literals)?;
    let clause = Clause { literals }.normal(alloc)?;
    Ok(clause)
}

/// Two clauses without one literal each, with the unifier put through them.
pub fn conclude_pair(
    alloc: Global,
    binds: &[Bind],
    p: &Clause,
    i: usize,
    apart: &Rows<Literal>,
    j: usize,
) -> Result<Clause, NoMemory>
    requires left { i < length p.now.literals }
    requires right { j < length apart.now }
    ensures { IfOk result (λ c. c ≡ conclusion binds.now (remove p.now.literals i ++ remove apart.now j)) }
{
    let mut literals = Rows::begin(alloc);
    push_rest(alloc, &*binds, p.literals.as_slice(), i, &mut literals)?;
    push_rest(alloc, &*binds, apart.as_slice(), j, &mut literals)?;
    let clause = Clause { literals }.normal(alloc)?;
    Ok(clause)
}
