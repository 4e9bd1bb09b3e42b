use std::alloc::Global;
use std::test::Fail;
use text_kit::{Bytes, NoMemory, put_decimal};
use theory_reader::{Theory, TheoryFault, TheoryKind, read};

const MOST: usize = 1_000_000;

/// Whether the text is a theory.
fn reads(alloc: Global, text: &[u8]) -> bool {
    text.len() < MOST && read(alloc, text).is_ok()
}

/// Whether this is the text's fault.
fn faulty(alloc: Global, text: &[u8], at: u64, kind: TheoryKind) -> bool {
    text.len() < MOST && read(alloc, text).err() == Some(TheoryFault::At { at, kind })
}

/// The place of the first text whose fault is not the one of this kind.
fn first_wrong(alloc: Global, kind: TheoryKind, cases: &[(&[u8], u64)]) -> Option<usize> {
    for (i, case) in cases.iter().enumerate() {
        if !faulty(alloc, case.0, case.1, kind) {
            return Some(i);
        }
    }
    None
}

#[test]
fn faults_of_syntax(rt: HostRuntime) -> Result<(), Fail> {
    let cases = [
        (b"const p : bool goal g : p;".as_slice(), 15),
        (b"goal g : p".as_slice(), 10),
        (b"fact f : true = true = true;".as_slice(), 21),
        (b"fact f : true;;".as_slice(), 14),
        (b"type type;".as_slice(), 5),
        (b"fact f : true # the end".as_slice(), 23),
    ];
    assert!(rt; first_wrong(rt.alloc(), TheoryKind::Syntax, &cases) == None);
    assert!(rt; faulty(rt.alloc(), b"goal g : %", 9, TheoryKind::Token));
    Ok(())
}

#[test]
fn faults_of_repeated_names(rt: HostRuntime) -> Result<(), Fail> {
    let cases = [
        (b"type n; type n;".as_slice(), 13),
        (b"const p : bool; goal g : p assume g : p;".as_slice(), 34),
        (b"const p : bool; const p : q;".as_slice(), 22),
        (b"fact f : true; fact f : true;".as_slice(), 20),
        (b"fact f : true; goal f : true;".as_slice(), 20),
        (b"goal f : true; fact f : true;".as_slice(), 20),
        (
            b"fact f : true; goal g : true assume f : true;".as_slice(),
            36,
        ),
        (
            b"goal g : true assume h : true assume h : true;".as_slice(),
            37,
        ),
    ];
    assert!(rt; first_wrong(rt.alloc(), TheoryKind::Repeated, &cases) == None);
    Ok(())
}

#[test]
fn faults_of_unknown_names(rt: HostRuntime) -> Result<(), Fail> {
    let cases = [
        (b"goal g : p;".as_slice(), 9),
        (b"const c : n;".as_slice(), 10),
        (b"fact f : !x:n. x;".as_slice(), 12),
        (b"const p : bool; fact f : p x;".as_slice(), 27),
        (b"goal g : true assume h : q;".as_slice(), 25),
        (b"fact f : (\\x:bool. x) = (\\y:bool. x);".as_slice(), 34),
    ];
    assert!(rt; first_wrong(rt.alloc(), TheoryKind::Unknown, &cases) == None);
    Ok(())
}

#[test]
fn faults_of_applications(rt: HostRuntime) -> Result<(), Fail> {
    let cases = [
        (
            b"type n; const a : n; const q : n -> bool; fact f : q true;".as_slice(),
            53,
        ),
        (
            b"type n; const a : n; const q : n -> bool; fact f : (q a) a;".as_slice(),
            51,
        ),
        (
            b"type n; const a : n; const q : n -> bool; fact f : q q x;".as_slice(),
            53,
        ),
        (
            b"type n; const a : n; const q : n -> bool; fact f : a a true;".as_slice(),
            51,
        ),
    ];
    assert!(rt; first_wrong(rt.alloc(), TheoryKind::IllTyped, &cases) == None);
    Ok(())
}

#[test]
fn faults_of_connectives(rt: HostRuntime) -> Result<(), Fail> {
    let cases = [
        (b"type n; const a : n; goal g : a & a;".as_slice(), 30),
        (
            b"type n; const a : n; const q : n -> bool; fact f : a = (true);".as_slice(),
            55,
        ),
        (
            b"type n; const a : n; const q : n -> bool; fact f : true ==> (a);".as_slice(),
            60,
        ),
        (
            b"type n; const a : n; const q : n -> bool; fact f : ~a;".as_slice(),
            52,
        ),
        (
            b"type n; const a : n; const q : n -> bool; fact f : !x:n. (x);".as_slice(),
            57,
        ),
    ];
    assert!(rt; first_wrong(rt.alloc(), TheoryKind::IllTyped, &cases) == None);
    Ok(())
}

#[test]
fn faults_of_statements(rt: HostRuntime) -> Result<(), Fail> {
    let cases = [
        (b"type n; const a : n; goal g : a;".as_slice(), 30),
        (
            b"type n; const a : n; const q : n -> bool; fact f : (\\x:n. x);".as_slice(),
            51,
        ),
        (
            b"type n; const a : n; const q : n -> bool; goal g : true assume h : a;".as_slice(),
            67,
        ),
    ];
    assert!(rt; first_wrong(rt.alloc(), TheoryKind::NotBool, &cases) == None);
    Ok(())
}

fn put_times(out: &mut Bytes, piece: &[u8], times: usize) -> Result<(), NoMemory> {
    for _ in 0..times {
        out.append(piece)?;
    }
    Ok(())
}

/// `front`, then the pieces each so many times with `middle` between them, then `;`.
fn long(
    alloc: Global,
    front: &[u8],
    left: &[u8],
    middle: &[u8],
    right: &[u8],
    times: usize,
) -> Result<Bytes, NoMemory> {
    let mut out = Bytes::from_slice(alloc, front)?;
    put_times(&mut out, left, times)?;
    out.append(middle)?;
    put_times(&mut out, right, times)?;
    out.push(b';')?;
    Ok(out)
}

fn nested(alloc: Global, times: usize) -> Result<Bytes, NoMemory> {
    long(alloc, b"fact f : ", b"(", b"true", b")", times)
}

fn chained(alloc: Global, times: usize) -> Result<Bytes, NoMemory> {
    long(alloc, b"fact f : ", b"true ==> ", b"true", b"", times)
}

fn arrows(alloc: Global, times: usize) -> Result<Bytes, NoMemory> {
    long(alloc, b"const c : ", b"bool -> ", b"bool", b"", times)
}

fn word(alloc: Global, times: usize) -> Result<Bytes, NoMemory> {
    long(alloc, b"type ", b"a", b"", b"", times)
}

/// Applications to eight arguments in each other, the innermost of `true`s.
fn deep(alloc: Global, times: usize) -> Result<Bytes, NoMemory> {
    long(
        alloc,
        b"const g : bool -> bool -> bool -> bool -> bool -> bool -> bool -> bool -> bool; fact f : ",
        b"g (",
        b"true",
        b") true true true true true true true",
        times,
    )
}

#[test]
fn levels_and_depths_are_limited(rt: HostRuntime) -> Result<(), Fail> {
    let alloc = rt.alloc();
    assert!(rt; reads(alloc, nested(alloc, 256)?.as_slice()));
    assert!(rt;
        faulty(
            alloc,
            nested(alloc, 257)?.as_slice(),
            266,
            TheoryKind::TooDeep
        )
    );
    assert!(rt; reads(alloc, chained(alloc, 256)?.as_slice()));
    assert!(rt;
        faulty(
            alloc,
            chained(alloc, 257)?.as_slice(),
            2322,
            TheoryKind::TooDeep
        )
    );
    assert!(rt; reads(alloc, arrows(alloc, 256)?.as_slice()));
    assert!(rt;
        faulty(
            alloc,
            arrows(alloc, 257)?.as_slice(),
            2066,
            TheoryKind::TooDeep
        )
    );
    assert!(rt; reads(alloc, word(alloc, 64)?.as_slice()));
    assert!(rt; faulty(alloc, word(alloc, 65)?.as_slice(), 5, TheoryKind::Token));
    assert!(rt; reads(alloc, deep(alloc, 127)?.as_slice()));
    assert!(rt; faulty(alloc, deep(alloc, 128)?.as_slice(), 89, TheoryKind::TooDeep));
    Ok(())
}

fn put_facts(out: &mut Bytes, count: u64) -> Result<(), NoMemory> {
    for i in 0..count {
        out.append(b"fact f")?;
        put_decimal(out, i)?;
        out.append(b" : true;")?;
    }
    Ok(())
}

fn put_assumptions(out: &mut Bytes, count: u64) -> Result<(), NoMemory> {
    out.append(b"goal g : true")?;
    for i in 0..count {
        out.append(b" assume h")?;
        put_decimal(out, i)?;
        out.append(b" : true")?;
    }
    Ok(())
}

/// 20,000 facts, and then the text.
fn facts(alloc: Global, then: &[u8]) -> Result<Bytes, NoMemory> {
    let mut out = Bytes::begin(alloc);
    put_facts(&mut out, 20_000)?;
    out.append(then)?;
    Ok(out)
}

/// A goal with 64 assumptions, and then the text.
fn assumptions(alloc: Global, then: &[u8]) -> Result<Bytes, NoMemory> {
    let mut out = Bytes::begin(alloc);
    put_assumptions(&mut out, 64)?;
    out.append(then)?;
    Ok(out)
}

#[test]
fn facts_are_limited(rt: HostRuntime) -> Result<(), Fail> {
    let alloc = rt.alloc();
    assert!(rt;
        reads(
            alloc,
            facts(alloc, b"goal g : true assume a : true;")?.as_slice()
        )
    );
    assert!(rt;
        faulty(
            alloc,
            facts(alloc, b"fact a : true;")?.as_slice(),
            368895,
            TheoryKind::TooMany
        )
    );
    Ok(())
}

#[test]
fn a_repeated_name_comes_before_the_limit(rt: HostRuntime) -> Result<(), Fail> {
    let alloc = rt.alloc();
    assert!(rt;
        faulty(
            alloc,
            facts(alloc, b"fact f7 : true;")?.as_slice(),
            368895,
            TheoryKind::Repeated
        )
    );
    Ok(())
}

#[test]
fn assumptions_are_limited(rt: HostRuntime) -> Result<(), Fail> {
    let alloc = rt.alloc();
    assert!(rt; reads(alloc, assumptions(alloc, b"; fact h0 : true;")?.as_slice()));
    assert!(rt;
        faulty(
            alloc,
            assumptions(alloc, b" assume a : true;")?.as_slice(),
            1163,
            TheoryKind::TooMany
        )
    );
    assert!(rt;
        faulty(
            alloc,
            assumptions(alloc, b" assume h7 : true;")?.as_slice(),
            1163,
            TheoryKind::Repeated
        )
    );
    Ok(())
}

/// Whether names are found where they are, in a theory of two goals of which the first has the assumption `h`.
fn finds(theory: &Theory) -> bool {
    theory.goal_named(b"k") == Some(1)
        && theory.goal_named(b"f") == None
        && theory.fact_named(b"f") == Some(0)
        && theory.fact_named(b"h") == None
        && theory.visible_named(0, b"f") == Some(0)
        && theory.visible_named(0, b"h") == Some(1)
        && theory.visible_named(1, b"h") == None
        && theory.visible_named(1, b"e") == None
        && theory.visible_named(2, b"f") == None
}

fn env_holds(alloc: Global, theory: &Theory, goal: u32, facts: usize) -> Result<bool, NoMemory> {
    if theory.goals.len() <= goal as usize {
        return Ok(false);
    }
    let env = theory.env(alloc, goal)?;
    Ok(env.facts.len() == facts && env.sig.types == 2 && env.sig.consts.len() == 2)
}

#[test]
fn names_are_found(rt: HostRuntime) -> Result<(), Fail> {
    let alloc = rt.alloc();
    let text =
        b"type t; const p : bool; const q : bool; # two\r\n fact f : p ==> q; goal g : q assume h : p; goal k : q; fact e : p;";
    let theory = match read(alloc, text) {
        Ok(theory) => theory,
        Err(_) => return Err(Fail::from(NoMemory)),
    };
    assert!(rt; finds(&theory));
    assert!(rt; env_holds(alloc, &theory, 0, 2)?);
    assert!(rt; env_holds(alloc, &theory, 1, 1)?);
    assert!(rt; reads(alloc, b""));
    Ok(())
}
