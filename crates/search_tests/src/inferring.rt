use fo_infer::{alone, alone_is_one_list, between, between_is_one_list, between_plain, subsumes};
use fo_terms::{Atom, Clause, FoTerm, Literal};
use std::alloc::Global;
use std::test::Fail;
use text_kit::{NoMemory, Rows};

fn constant(alloc: Global, f: u64) -> FoTerm {
    FoTerm::Fun(f, Rows::begin(alloc))
}

fn one(alloc: Global, f: u64, x: FoTerm) -> Result<FoTerm, NoMemory> {
    let mut args = Rows::begin(alloc);
    args.push(x)?;
    Ok(FoTerm::Fun(f, args))
}

fn holds(positive: bool, t: FoTerm) -> Literal {
    Literal {
        positive,
        atom: Atom::Holds(t),
    }
}

fn equal(positive: bool, s: FoTerm, t: FoTerm) -> Literal {
    Literal {
        positive,
        atom: Atom::Eq(s, t),
    }
}

fn unit(alloc: Global, l: Literal) -> Result<Clause, NoMemory> {
    let mut literals = Rows::begin(alloc);
    literals.push(l)?;
    Ok(Clause { literals })
}

fn pair(alloc: Global, l: Literal, m: Literal) -> Result<Clause, NoMemory> {
    let mut literals = Rows::begin(alloc);
    literals.push(l)?;
    literals.push(m)?;
    Ok(Clause { literals })
}

#[tactic(none)]
fn resolves_the_greater_literal(alloc: Global) -> Result<bool, NoMemory> {
    let implies = pair(
        alloc,
        holds(false, constant(alloc, 1)),
        holds(true, constant(alloc, 2)),
    )?;
    let denied = unit(alloc, holds(false, constant(alloc, 2)))?;
    between_is_one_list(&implies, &denied);
    let made = between(alloc, &implies, &denied)?;
    if made.len() != 1 {
        return Ok(false);
    }
    if let Some(m) = made.get(0) {
        if !(m
            .clause
            .same(&unit(alloc, holds(false, constant(alloc, 1)))?))
        {
            return Ok(false);
        }
    }
    let fact = unit(alloc, holds(true, constant(alloc, 1)))?;
    if between(alloc, &fact, &implies)?.len() != 0 {
        return Ok(false);
    }
    Ok(true)
}

#[tactic(none)]
fn paramodulates_at_tags(alloc: Global) -> Result<bool, NoMemory> {
    let tagged = unit(
        alloc,
        equal(
            true,
            one(alloc, 1, constant(alloc, 3))?,
            one(alloc, 1, constant(alloc, 2))?,
        ),
    )?;
    let goal = unit(alloc, holds(true, one(alloc, 1, constant(alloc, 3))?))?;
    let wanted = unit(alloc, holds(true, one(alloc, 1, constant(alloc, 2))?))?;
    let made = between(alloc, &tagged, &goal)?;
    if made.len() != 1 {
        return Ok(false);
    }
    if let Some(m) = made.get(0) {
        if !(m.clause.same(&wanted)) {
            return Ok(false);
        }
    }
    if between_plain(alloc, &tagged, &goal)?.len() != 0 {
        return Ok(false);
    }
    let bare = unit(alloc, equal(true, constant(alloc, 2), constant(alloc, 3)))?;
    if between(alloc, &bare, &goal)?.len() != 0 {
        return Ok(false);
    }
    let plain = between_plain(alloc, &bare, &goal)?;
    if plain.len() != 1 {
        return Ok(false);
    }
    if let Some(m) = plain.get(0) {
        if !(m.clause.same(&wanted)) {
            return Ok(false);
        }
    }
    Ok(true)
}

#[tactic(none)]
fn factors_and_reflects(alloc: Global) -> Result<bool, NoMemory> {
    let mut clause = pair(
        alloc,
        holds(true, one(alloc, 1, FoTerm::Var(0))?),
        holds(true, one(alloc, 1, constant(alloc, 2))?),
    )?;
    clause
        .literals
        .push(equal(false, FoTerm::Var(0), constant(alloc, 3)))?;
    alone_is_one_list(&clause);
    let made = alone(alloc, &clause)?;
    if made.len() != 2 {
        return Ok(false);
    }
    if let Some(m) = made.get(0) {
        if !(m.clause.same(&pair(
            alloc,
            holds(true, one(alloc, 1, constant(alloc, 2))?),
            equal(false, constant(alloc, 2), constant(alloc, 3)),
        )?)) {
            return Ok(false);
        }
    }
    if let Some(m) = made.get(1) {
        if !(m.clause.same(&pair(
            alloc,
            holds(true, one(alloc, 1, constant(alloc, 3))?),
            holds(true, one(alloc, 1, constant(alloc, 2))?),
        )?)) {
            return Ok(false);
        }
    }
    Ok(true)
}

#[tactic(none)]
fn subsumes_by_one_literal_twice(alloc: Global) -> Result<bool, NoMemory> {
    let general = pair(
        alloc,
        holds(true, one(alloc, 1, FoTerm::Var(0))?),
        holds(true, one(alloc, 1, FoTerm::Var(1))?),
    )?;
    let special = pair(
        alloc,
        holds(true, constant(alloc, 5)),
        holds(true, one(alloc, 1, constant(alloc, 2))?),
    )?;
    if !(subsumes(alloc, &general, &special)?) {
        return Ok(false);
    }
    let joined = pair(
        alloc,
        holds(true, one(alloc, 1, FoTerm::Var(0))?),
        holds(false, one(alloc, 4, FoTerm::Var(0))?),
    )?;
    let apart = pair(
        alloc,
        holds(true, one(alloc, 1, constant(alloc, 2))?),
        holds(false, one(alloc, 4, constant(alloc, 3))?),
    )?;
    if !(!subsumes(alloc, &joined, &apart)?) {
        return Ok(false);
    }
    if !(!subsumes(
        alloc,
        &general,
        &unit(alloc, holds(true, one(alloc, 1, constant(alloc, 2))?))?,
    )?) {
        return Ok(false);
    }
    Ok(true)
}

/// Nine literals that share no variables, and two that can't be sent together: each assignment of the nine would be tried in vain.
fn subsumes_part_by_part(alloc: Global) -> Result<bool, NoMemory> {
    let mut general = Rows::begin(alloc);
    let mut special = Rows::begin(alloc);
    for k in 0..9u64 {
        general.push(holds(false, one(alloc, 1, FoTerm::Var(k))?))?;
        special.push(holds(false, one(alloc, 1, constant(alloc, k))?))?;
    }
    general.push(holds(true, one(alloc, 2, FoTerm::Var(9))?))?;
    general.push(holds(true, one(alloc, 3, FoTerm::Var(9))?))?;
    special.push(holds(true, one(alloc, 2, constant(alloc, 1))?))?;
    special.push(holds(true, one(alloc, 3, constant(alloc, 2))?))?;
    let general = Clause { literals: general };
    let special = Clause { literals: special };
    Ok(!subsumes(alloc, &general, &special)?)
}

#[test]
fn infers(rt: HostRuntime) -> Result<(), Fail> {
    let alloc = rt.alloc();
    assert!(rt; resolves_the_greater_literal(alloc)?);
    assert!(rt; paramodulates_at_tags(alloc)?);
    assert!(rt; factors_and_reflects(alloc)?);
    assert!(rt; subsumes_by_one_literal_twice(alloc)?);
    assert!(rt; subsumes_part_by_part(alloc)?);
    Ok(())
}
