use kernel_rules::{Step, ThmId};
use proof_reader::read_proof;
use proof_syntax::ProofFault;
use std::alloc::Global;
use std::test::Fail;
use text_kit::{Bytes, NoMemory};
use theory_reader::{Theory, read};

const SMALL: &[u8] = b"const p : bool; const q : bool; fact f1 : p; fact f2 : ~p | q; goal g : q;";

/// A goal with a fact before it, one behind it, and an assumption.
const LARGE: &[u8] = b"type nat; const z : nat; const p : nat -> bool;
fact f : true; goal g : true assume h : true; fact later : true;";

/// What a text that isn't too long reads as.
fn theory(alloc: Global, text: &[u8]) -> Option<Theory> {
    if text.len() < 0xffff_ffff {
        read(alloc, text).ok()
    } else {
        None
    }
}

/// The place of a text's fault.
fn fault(alloc: Global, theory: &Theory, text: &[u8]) -> Option<u64> {
    match read_proof(alloc, theory, text) {
        Err(ProofFault::At { at }) => Some(at),
        _ => None,
    }
}

/// The number of steps of a proof of the first goal.
fn steps(alloc: Global, theory: &Theory, text: &[u8]) -> Option<usize> {
    match read_proof(alloc, theory, text) {
        Ok(file) => if file.goal == 0 {
            Some(file.steps.len())
        } else {
            None
        },
        Err(_) => None,
    }
}

/// Text before the proof, a line that only ends like its first one among it.
const SMALL_PROOF: &[u8] = b"% SZS status Theorem
a sledge proof 1
sledge proof 1
goal g
0 fact f1
1 fact f2
2 assume (not .p)
3 notelim 2 0
4 classical .q 3
5 assume .q
6 orelim 1 4 5
end
";

fn are_small(steps: &[Step]) -> bool {
    matches!(
        steps,
        [
            Step::Fact(0),
            Step::Fact(1),
            Step::Assume(_),
            Step::NotElim(ThmId(2), ThmId(0)),
            Step::Classical(_, ThmId(3)),
            Step::Assume(_),
            Step::OrElim(ThmId(1), ThmId(4), ThmId(5)),
        ]
    )
}

fn small_is_read(alloc: Global) -> bool {
    match theory(alloc, SMALL) {
        Some(theory) => match read_proof(alloc, &theory, SMALL_PROOF) {
            Ok(file) => file.goal == 0 && are_small(file.steps.as_slice()),
            Err(_) => false,
        },
        None => false,
    }
}

#[test]
fn reads_a_proof(rt: HostRuntime) -> Result<(), Fail> {
    assert!(rt; small_is_read(rt.alloc()));
    Ok(())
}

/// Each rule.
const LARGE_PROOF: &[u8] = b"sledge proof 1
goal g
0 fact f
1 fact h
2 assume #0
3 impintro $3:nat 0
4 impelim 1 0
5 andintro 0 1
6 andleft 5
7 andright 5
8 orleft true 0
9 orright false 0
10 orelim 8 0 1
11 notintro not 0
12 notelim 11 0
13 trueintro
14 classical and 0
15 allintro 18446744073709551615 nat 0
16 allelim or 15
17 exintro imp .z 0
18 choose 17
19 refl (eps[nat] {nat}(.p #0))
20 subst eq[nat] 19 0
21 beta all[(nat>bool)]
22 abs 0 (bool>(nat>nat)) 0
23 iff 0 1
24 inst 7 bool ex[bool] 0
end
";

fn large_is_read(alloc: Global) -> Option<usize> {
    let theory = theory(alloc, LARGE)?;
    steps(alloc, &theory, LARGE_PROOF)
}

#[test]
fn reads_each_rule(rt: HostRuntime) -> Result<(), Fail> {
    assert!(rt; large_is_read(rt.alloc()) == Some(25));
    Ok(())
}

/// Texts, each with the place of its fault.
const FAULTS: &[(&[u8], u64)] = &[
    // no last line
    (b"sledge proof 1\ngoal g\n", 22),
    // bytes behind the last line
    (b"sledge proof 1\ngoal g\nend\n0", 26),
    // a leading zero
    (b"sledge proof 1\ngoal g\n0 choose 00\nend\n", 32),
    // 2^64
    (
        b"sledge proof 1\ngoal g\n0 choose 18446744073709551616\nend\n",
        50,
    ),
    // a fact that isn't declared
    (b"sledge proof 1\ngoal g\n0 fact f3\nend\n", 29),
    // a type that isn't declared
    (b"sledge proof 1\ngoal g\n0 allintro 0 nat 0\nend\n", 35),
    // another step is due
    (b"sledge proof 1\ngoal g\n1 fact f1\nend\n", 22),
    (b"sledge proof 1\ngoal g\n01 fact f1\nend\n", 23),
    // no rule goes on so
    (b"sledge proof 1\ngoal g\n0 fac f1\nend\n", 27),
    // a term where a theorem is wanted
    (
        b"sledge proof 1\ngoal g\n0 trueintro\n1 impelim 0 .p\nend\n",
        46,
    ),
    // an argument too many
    (b"sledge proof 1\ngoal g\n0 trueintro 0\nend\n", 33),
    // a goal that isn't declared
    (b"sledge proof 1\ngoal h\nend\n", 20),
    // the first line never comes
    (b"sledge proof 2\ngoal g\nend\n", 26),
    (b" sledge proof 1\ngoal g\nend\n", 27),
    // the first of two first lines counts
    (b"sledge proof 1\nsledge proof 1\ngoal g\nend\n", 15),
];

/// The place of the first text whose fault is another.
fn first_wrong(alloc: Global, theory: &Theory) -> Option<usize> {
    for (i, case) in FAULTS.iter().enumerate() {
        if fault(alloc, theory, case.0) != Some(case.1) {
            return Some(i);
        }
    }
    None
}

/// A step with so many brackets open.
fn nested(alloc: Global, depth: usize) -> Result<Bytes, NoMemory> {
    let mut text = Bytes::from_slice(alloc, b"sledge proof 1\ngoal g\n0 assume ")?;
    for _ in 0..depth {
        text.append(b"(")?;
    }
    Ok(text)
}

fn nested_fault(alloc: Global, theory: &Theory, depth: usize) -> Option<u64> {
    match nested(alloc, depth) {
        Ok(text) => fault(alloc, theory, text.as_slice()),
        Err(_) => None,
    }
}

fn faults_are_placed(alloc: Global) -> bool {
    match theory(alloc, SMALL) {
        Some(theory) => {
            first_wrong(alloc, &theory).is_none()
                && nested_fault(alloc, &theory, 4096) == Some(31 + 4096)
                && nested_fault(alloc, &theory, 4100) == Some(31 + 4096)
        }
        None => false,
    }
}

#[test]
fn faults_stand_at_their_places(rt: HostRuntime) -> Result<(), Fail> {
    assert!(rt; faults_are_placed(rt.alloc()));
    Ok(())
}
