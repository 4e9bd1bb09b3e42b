use hol_terms::{Konst, Term, Ty, arrow, same};
use proof_syntax::PartFault;
use proof_terms::*;
use std::alloc::Global;
use std::test::Fail;
use text_kit::{Bytes, NoMemory, Shared};
use theory_terms::Names;

const TYPES: &[&[u8]] = &[b"bool", b"nat"];

const CONSTS: &[&[u8]] = &[b"c", b"p"];

fn names_of<'t>(alloc: Global, list: &[&'t [u8]]) -> Result<Names<'t>, NoMemory> {
    let mut names = Names::begin(alloc);
    for name in list {
        if names.place(*name).is_none() {
            names.add(*name)?;
        }
    }
    Ok(names)
}

fn lookup(alloc: Global) -> Result<Lookup<'static>, NoMemory> {
    let types = names_of(alloc, TYPES)?;
    let consts = names_of(alloc, CONSTS)?;
    Ok(Lookup::new(types, consts, Names::begin(alloc)))
}

fn app(alloc: Global, f: Term, x: Term) -> Result<Term, NoMemory> {
    let head = Shared::new(alloc, f)?;
    let arg = Shared::new(alloc, x)?;
    Ok(Term::App(head, arg))
}

// `eps` of the lambda over a `nat` on which `p` holds
#[tactic(none)]
fn chosen(alloc: Global) -> Result<Term, NoMemory> {
    let body = app(alloc, Term::Con(Konst::Named(1)), Term::Bound(0))?;
    let lambda = Term::Lam(Ty::Base(1), Shared::new(alloc, body)?);
    app(alloc, Term::Con(Konst::Eps(Ty::Base(1))), lambda)
}

// the greatest variable number, of a type with two arrows
#[tactic(none)]
fn variable(alloc: Global) -> Result<Term, NoMemory> {
    let from = arrow(alloc, Ty::Base(1), Ty::Base(0))?;
    Ok(Term::Free(18446744073709551615, arrow(alloc, from, Ty::Base(1))?))
}

fn is_read(alloc: Global, names: &Lookup, text: &[u8], wanted: &Term) -> bool {
    match read_term(alloc, names, 0, text) {
        Ok((term, rest)) => same(&term, wanted) && rest == b"!".as_slice(),
        Err(_) => false,
    }
}

#[tactic(none)]
fn are_read(alloc: Global) -> Result<bool, NoMemory> {
    let names = lookup(alloc)?;
    let words = is_read(alloc, &names, b"true!", &Term::Con(Konst::True))
        && is_read(alloc, &names, b"imp!", &Term::Con(Konst::Imp))
        && is_read(
            alloc,
            &names,
            b"eq[bool]!",
            &Term::Con(Konst::Eq(Ty::Base(0))),
        )
        && is_read(
            alloc,
            &names,
            b"all[nat]!",
            &Term::Con(Konst::All(Ty::Base(1))),
        );
    let choice = chosen(alloc)?;
    let greatest = variable(alloc)?;
    Ok(
        words
            && is_read(alloc, &names, b"(eps[nat] {nat}(.p #0))!", &choice)
            && is_read(
                alloc,
                &names,
                b"$18446744073709551615:((nat>bool)>nat)!",
                &greatest,
            ),
    )
}

#[test]
fn reads(rt: HostRuntime) -> Result<(), Fail> {
    assert!(rt; are_read(rt.alloc()) == Ok(true));
    Ok(())
}

#[derive(Clone, Copy)]
struct Case<'a> {
    text: &'a [u8],
    fault: PartFault,
}

const FAULTS: &[Case] = &[
    Case {
        text: b"#01",
        fault: PartFault::Stops(1),
    },
    Case {
        text: b"#18446744073709551616",
        fault: PartFault::Stops(1),
    },
    Case {
        text: b"$1:(nat>nut)",
        fault: PartFault::GoesBeyond(4),
    },
    Case {
        text: b"$1:(nat)",
        fault: PartFault::Stops(1),
    },
    Case {
        text: b"(.p .d)",
        fault: PartFault::GoesBeyond(2),
    },
    Case {
        text: b"(.p #0",
        fault: PartFault::Stops(0),
    },
    Case {
        text: b"(.p  #0)",
        fault: PartFault::Stops(4),
    },
    Case {
        text: b"tru ",
        fault: PartFault::Stops(1),
    },
    Case {
        text: b"eq ",
        fault: PartFault::Stops(1),
    },
    Case {
        text: b"{nat #0",
        fault: PartFault::Stops(3),
    },
];

fn are_refused(alloc: Global) -> Result<bool, NoMemory> {
    let names = lookup(alloc)?;
    for case in FAULTS {
        if read_term(alloc, &names, 0, case.text).err() != Some(case.fault) {
            return Ok(false);
        }
    }
    Ok(true)
}

#[test]
fn refuses(rt: HostRuntime) -> Result<(), Fail> {
    assert!(rt; are_refused(rt.alloc()) == Ok(true));
    Ok(())
}

fn nested(alloc: Global, times: u32) -> Result<Bytes, NoMemory> {
    let mut text = Bytes::begin(alloc);
    for _ in 0..times {
        text.append(b"{nat}")?;
    }
    text.append(b"#0")?;
    Ok(text)
}

fn are_nested(alloc: Global) -> Result<bool, NoMemory> {
    let names = lookup(alloc)?;
    let text = nested(alloc, 4096)?;
    let deeper = nested(alloc, 4097)?;
    let fault = read_term(alloc, &names, 0, deeper.as_slice()).err();
    Ok(
        read_term(alloc, &names, 0, text.as_slice()).is_ok()
            && fault == Some(PartFault::GoesBeyond(7)),
    )
}

#[test]
fn nests(rt: HostRuntime) -> Result<(), Fail> {
    assert!(rt; are_nested(rt.alloc()) == Ok(true));
    Ok(())
}
