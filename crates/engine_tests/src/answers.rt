use race_outside::{Held, MemorySink, SureShelf};
use sledge_engine::answer;
use std::alloc::Global;
use std::test::Fail;
use text_kit::{Bytes, NoMemory, Rows};

/// Two facts and a goal that follows from both.
pub(crate) const IMPLIED: &[u8] =
    b"const p : bool; const q : bool; fact f1 : p; fact f2 : ~p | q; goal g : q;";

/// Facts of 64 clauses and of 65, a goal of one clause, and one whose denial has 65.
const LARGE: &[u8] =
    b"const p1 : bool; const p2 : bool; const p3 : bool; const p4 : bool; const p5 : bool; const p6 : bool; const p7 : bool; const p8 : bool;
const q1 : bool; const q2 : bool; const q3 : bool; const q4 : bool; const q5 : bool; const q6 : bool; const q7 : bool; const q8 : bool; const r : bool;
fact big : (p1 & p2 & p3 & p4 & p5 & p6 & p7 & p8) | (q1 & q2 & q3 & q4 & q5 & q6 & q7 & q8);
fact huge : ((p1 & p2 & p3 & p4 & p5 & p6 & p7 & p8) | (q1 & q2 & q3 & q4 & q5 & q6 & q7 & q8)) & r;
goal g : r;
goal k : (p1 | p2 | p3 | p4 | p5 | p6 | p7 | p8) & (q1 | q2 | q3 | q4 | q5 | q6 | q7 | q8) | r;";

/// Four facts that are as relevant as each other.
const EQUALS: &[u8] =
    b"const p : bool; const q : bool; const r : bool; const s : bool; const t : bool;
fact a : p & q; fact b : p & r; fact c : p & s; fact d : p & t; goal g : p;";

pub(crate) fn words(alloc: Global, line: &[&str]) -> Result<Vec<String>, NoMemory> {
    let mut words = Vec::new(alloc);
    for word in line {
        match String::from_str(alloc, word) {
            Ok(word) => match words.push(word) {
                Ok(()) => {}
                Err(_) => return Err(NoMemory),
            },
            Err(_) => return Err(NoMemory),
        }
    }
    Ok(words)
}

pub(crate) fn held(alloc: Global, name: &[u8], bytes: &[u8]) -> Result<Held, NoMemory> {
    let name = Bytes::from_slice(alloc, name)?;
    let bytes = Bytes::from_slice(alloc, bytes)?;
    Ok(Held { name, bytes })
}

/// A shelf that holds a theory under the name `T` and a proof file under `P`.
fn shelf(alloc: Global, theory: &[u8], proof: &[u8]) -> Result<SureShelf, NoMemory> {
    let mut files = Rows::begin(alloc);
    files.push(held(alloc, b"T", theory)?)?;
    files.push(held(alloc, b"P", proof)?)?;
    Ok(SureShelf::begin(files))
}

/// The status and the text of the answer to a line.
#[tactic(none)]
fn told(
    alloc: Global,
    theory: &[u8],
    proof: &[u8],
    line: &[&str],
) -> Result<(u8, Bytes), NoMemory> {
    let words = words(alloc, line)?;
    let mut shelf = shelf(alloc, theory, proof)?;
    let mut out = MemorySink::begin(alloc, Rows::begin(alloc));
    let status = answer(alloc, words.as_slice(), &mut shelf, &mut out);
    Ok((status, out.taken().copy(alloc)?))
}

/// Whether this line is answered with this status and this text.
fn says(
    alloc: Global,
    theory: &[u8],
    proof: &[u8],
    line: &[&str],
    status: u8,
    text: &[u8],
) -> Result<bool, NoMemory> {
    let (given, out) = told(alloc, theory, proof, line)?;
    Ok(given == status && out.as_slice() == text)
}

/// The status where the sink fails at its first put.
fn status_over_failing_sink(alloc: Global) -> Result<u8, NoMemory> {
    let words = words(alloc, &["metis", "T", "g", "f1", "f2"])?;
    let mut shelf = shelf(alloc, IMPLIED, b"")?;
    let mut fails = Rows::begin(alloc);
    fails.push(0)?;
    let mut out = MemorySink::begin(alloc, fails);
    Ok(answer(alloc, words.as_slice(), &mut shelf, &mut out))
}

/// A theory, a line, and what is answered.
#[derive(Clone, Copy, Drop)]
struct Case<'a> {
    theory: &'a [u8],
    line: &'a [&'a str],
    status: u8,
    text: &'a [u8],
}

const CASES: [Case; 39] = [
    Case {
        theory: IMPLIED,
        line: &["metis", "T", "g", "f1", "f2"],
        status: 0,
        text: b"proof: by metis f1 f2\n",
    },
    Case {
        theory: IMPLIED,
        line: &["metis", "T", "g", "f1", "f2", "--budget", "3"],
        status: 1,
        text: b"proof: not found (spent)\n",
    },
    Case {
        theory: IMPLIED,
        line: &["metis", "--budget=4", "T", "g", "f2", "f1", "f2"],
        status: 0,
        text: b"proof: by metis f1 f2\n",
    },
    Case {
        theory: b"const p : bool; goal g : p | ~p;",
        line: &["metis", "T", "g"],
        status: 0,
        text: b"proof: by metis\n",
    },
    Case {
        theory: b"const p : bool; const q : bool; fact f1 : p; fact f2 : ~p; goal g : q;",
        line: &["metis", "T", "g", "f1", "f2"],
        status: 0,
        text: b"proof: by metis f1 f2\n",
    },
    Case {
        theory: b"const p : bool; const q : bool; fact f : ~p | q; goal g : q assume h : p; goal k : q;",
        line: &["metis", "T", "g", "h", "f"],
        status: 0,
        text: b"proof: by metis f h\n",
    },
    Case {
        theory: b"const p : bool; const q : bool; fact f : p ==> q; goal g : q assume h : p; goal k : q;",
        line: &["metis", "T", "k", "f", "h"],
        status: 2,
        text: b"fault: fact h\n",
    },
    Case {
        theory: b"const p : bool; fact n : p & p; goal g : p;",
        line: &["metis", "T", "g", "--proof"],
        status: 1,
        text: b"proof: not found (saturated)\n",
    },
    Case {
        theory: b"",
        line: &["metis", "T", "g"],
        status: 4,
        text: b"fault: goal g\n",
    },
    Case {
        theory: b"const p : bool goal g : p;",
        line: &["metis", "T", "g"],
        status: 4,
        text: b"fault: theory at 15: syntax\n",
    },
    Case {
        theory: b"type n; const a : n; goal g : a & a;",
        line: &["metis", "T", "g"],
        status: 4,
        text: b"fault: theory at 30: ill typed\n",
    },
    Case {
        theory: b"const p : bool; const q : bool; fact f1 : p; fact f2 : ~p | q; fact f3 : q; goal g3 : q;",
        line: &["metis", "T", "g3", "f1", "f3"],
        status: 0,
        text: b"proof: by metis f3\n",
    },
    Case {
        theory: b"type unit; type nat; const a : nat; const b : nat; fact one : !x:unit. !y:unit. x = y; goal g : a = b;",
        line: &["metis", "T", "g", "one"],
        status: 1,
        text: b"proof: not found (saturated)\n",
    },
    Case {
        theory: ADDED,
        line: &["metis", "T", "two", "add_zero", "add_suc"],
        status: 0,
        text: b"proof: by metis add_zero add_suc\n",
    },
    Case {
        theory: b"type nat; const zero : nat; const suc : nat -> nat; const map : (nat -> nat) -> nat -> nat; fact map_def : !f:nat -> nat. !x:nat. map f x = f x; goal g : map (\\y:nat. suc y) zero = suc zero;",
        line: &["metis", "T", "g", "map_def"],
        status: 0,
        text: b"proof: by metis map_def\n",
    },
    Case {
        theory: b"const u : bool; const v : bool; const r : bool; const t : bool; const p : bool; fact x : u; fact j : r; fact a : p & t; fact d : (p ==> v) & (p ==> t ==> u); goal g : u & v;",
        line: &["metis", "T", "g", "x", "j", "a", "d", "--budget", "9"],
        status: 0,
        text: b"proof: by metis a d\n",
    },
    Case {
        theory: IMPLIED,
        line: &["metis", "TB", "g"],
        status: 3,
        text: b"fault: file TB\n",
    },
    Case {
        theory: IMPLIED,
        line: &["metis", "TB"],
        status: 2,
        text: b"fault: usage\n",
    },
    Case {
        theory: IMPLIED,
        line: &["metis", "T", "g", "f3"],
        status: 2,
        text: b"fault: fact f3\n",
    },
    Case {
        theory: b"",
        line: &["gen", "2"],
        status: 0,
        text: b"const c0 : bool;\nconst c1 : bool;\nfact f0 : c0;\nfact f1 : c0 ==> c1;\ngoal g : c1;\n",
    },
    Case {
        theory: b"",
        line: &["gen", "02"],
        status: 2,
        text: b"fault: usage\n",
    },
    Case {
        theory: IMPLIED,
        line: &["prove", "T", "g"],
        status: 2,
        text: b"fault: usage\n",
    },
    Case {
        theory: IMPLIED,
        line: &["model", "T", "g"],
        status: 2,
        text: b"fault: usage\n",
    },
    Case {
        theory: IMPLIED,
        line: &["check", "T", "P", "--proof"],
        status: 2,
        text: b"fault: usage\n",
    },
    Case {
        theory: IMPLIED,
        line: &["check", "TB", "Q"],
        status: 3,
        text: b"fault: file TB\n",
    },
    Case {
        theory: IMPLIED,
        line: &["check", "--", "T", "Q"],
        status: 3,
        text: b"fault: file Q\n",
    },
    Case {
        theory: b"const p : bool goal g : p;",
        line: &["check", "T", "Q"],
        status: 4,
        text: b"fault: theory at 15: syntax\n",
    },
    Case {
        theory: b"const p : bool; goal g : p;",
        line: &["metis", "--proof", "T", "g"],
        status: 1,
        text: b"proof: not found (saturated)\n",
    },
    Case {
        theory: LARGE,
        line: &["metis", "T", "g", "huge"],
        status: 2,
        text: b"fault: fact huge\n",
    },
    Case {
        theory: LARGE,
        line: &["metis", "T", "g", "big"],
        status: 1,
        text: b"proof: not found (saturated)\n",
    },
    Case {
        theory: LARGE,
        line: &["metis", "T", "k", "huge"],
        status: 4,
        text: b"fault: goal k too large\n",
    },
    Case {
        theory: LARGE,
        line: &["problem", "T", "k"],
        status: 4,
        text: b"fault: goal k too large\n",
    },
    Case {
        theory: LARGE,
        line: &["filter", "T", "g", "--slice", "7"],
        status: 0,
        text: b"big 1 0/256\n",
    },
    Case {
        theory: IMPLIED,
        line: &["filter", "T", "g", "--slice=7"],
        status: 0,
        text: b"f2 1 32/48\nf1 1 0/16\n",
    },
    Case {
        theory: IMPLIED,
        line: &["filter", "T", "g"],
        status: 0,
        text: b"f2 1 32/48\nf1 2 21/21\n",
    },
    Case {
        theory: EQUALS,
        line: &["filter", "T", "g", "--slice", "0"],
        status: 0,
        text: b"a 1 16/32\nb 1 16/32\nc 1 16/32\nd 1 16/32\n",
    },
    Case {
        theory: EQUALS,
        line: &["filter", "T", "g", "--slice", "5"],
        status: 0,
        text: b"",
    },
    Case {
        theory: IMPLIED,
        line: &["problem", "T", "g", "--slice", "7"],
        status: 0,
        text: b"fof(f_f2, axiom, ((~ holds(t0(c_p))) | holds(t0(c_q)))).\nfof(f_f1, axiom, holds(t0(c_p))).\nfof(goal, conjecture, holds(t0(c_q))).\n",
    },
    Case {
        theory: IMPLIED,
        line: &["problem", "T", "none"],
        status: 4,
        text: b"fault: goal none\n",
    },
];

/// Whether each line is answered as the table says.
fn all_say(alloc: Global, cases: &[Case]) -> Result<bool, NoMemory> {
    for case in cases {
        if !says(alloc, case.theory, b"", case.line, case.status, case.text)? {
            return Ok(false);
        }
    }
    Ok(true)
}

/// A proof of the goal of `IMPLIED`.
const PROOF: &[u8] =
    b"sledge proof 1\ngoal g\n0 fact f1\n1 fact f2\n2 assume (not .p)\n3 notelim 2 0\n4 classical .q 3\n5 assume .q\n6 orelim 1 4 5\nend\n";

/// Addition by its two equations, and that one and one are two.
const ADDED: &[u8] =
    b"type nat; const zero : nat; const suc : nat -> nat; const add : nat -> nat -> nat;
fact add_zero : !m:nat. add m zero = m; fact add_suc : !m:nat. !n:nat. add m (suc n) = suc (add m n);
goal two : add (suc zero) (suc zero) = suc (suc zero);";

/// A proof of the goal of `ADDED`.
const ADDED_PROOF: &[u8] =
    b"sledge proof 1\ngoal two\n0 fact add_suc\n1 allelim (.suc .zero) 0\n2 allelim .zero 1\n3 fact add_zero\n4 allelim (.suc .zero) 3\n5 subst {nat}((eq[nat] ((.add (.suc .zero)) (.suc .zero))) (.suc #0)) 4 2\nend\n";

/// A theory, a proof file, and what `check T P` answers.
#[derive(Clone, Copy, Drop)]
struct ProofCase<'a> {
    theory: &'a [u8],
    proof: &'a [u8],
    status: u8,
    text: &'a [u8],
}

const PROOFS: [ProofCase; 10] = [
    ProofCase {
        theory: IMPLIED,
        proof: PROOF,
        status: 0,
        text: b"checked: g from f1 f2\n",
    },
    ProofCase {
        theory: IMPLIED,
        proof: b"sledge proof 1\ngoal g\n0 fact f1\n1 fact f2\n2 assume (not .p)\n3 notelim 2 1\n4 classical .q 3\n5 assume .q\n6 orelim 1 4 5\nend\n",
        status: 7,
        text: b"refused: step 3\n",
    },
    ProofCase {
        theory: IMPLIED,
        proof: b"sledge proof 1\ngoal g\n0 fact f1\n1 fact f2\n2 assume (not .p)\n3 notelim 2 4\n4 fact f1\n5 assume .q\n6 orelim 1 4 5\nend\n",
        status: 7,
        text: b"refused: step 3\n",
    },
    ProofCase {
        theory: IMPLIED,
        proof: b"sledge proof 1\ngoal g\n0 fact f1\n1 fact f2\n2 assume (not .p)\n3 notelim 2 0\n4 classical .q 3\n5 assume .q\nend\n",
        status: 7,
        text: b"refused: step 6\n",
    },
    ProofCase {
        theory: IMPLIED,
        proof: b"sledge proof 1\ngoal g\n0 fact f1\n1 fact f2\n2 assume (not .p)\n3 notelim 2 0\n4 classical .q 3\n5 assume .q\n6 orelim 1 4 5\n",
        status: 7,
        text: b"refused: byte 118\n",
    },
    ProofCase {
        theory: IMPLIED,
        proof: b"sledge proof 1\ngoal g\nend\n",
        status: 7,
        text: b"refused: step 0\n",
    },
    ProofCase {
        theory: IMPLIED,
        proof: b"sledge proof 1\ngoal g\nend\n\n",
        status: 7,
        text: b"refused: byte 26\n",
    },
    ProofCase {
        theory: IMPLIED,
        proof: b"sledge proof 1\ngoal g\n0 fact f9\nend\n",
        status: 7,
        text: b"refused: byte 29\n",
    },
    ProofCase {
        theory: IMPLIED,
        proof: b"goal g\n",
        status: 7,
        text: b"refused: byte 7\n",
    },
    ProofCase {
        theory: ADDED,
        proof: ADDED_PROOF,
        status: 0,
        text: b"checked: two from add_zero add_suc\n",
    },
];

/// Whether each proof file is answered as the table says.
fn all_are_checked(alloc: Global, cases: &[ProofCase]) -> Result<bool, NoMemory> {
    for case in cases {
        if !says(
            alloc,
            case.theory,
            case.proof,
            &["check", "T", "P"],
            case.status,
            case.text,
        )? {
            return Ok(false);
        }
    }
    Ok(true)
}

/// A theory, the words of `metis` that show a proof, how the output begins, and what `check` says to it.
#[derive(Clone, Copy, Drop)]
struct ShownCase<'a> {
    theory: &'a [u8],
    line: &'a [&'a str],
    begins: &'a [u8],
    checked: &'a [u8],
}

const SHOWN: [ShownCase; 3] = [
    ShownCase {
        theory: b"type nat; const p : nat -> bool; const q : bool; fact some_p : ?x:nat. p x; fact every_p : !x:nat. p x ==> q; goal g : q;",
        line: &["metis", "T", "g", "some_p", "every_p", "--proof"],
        begins: b"proof: by metis some_p every_p\nsledge proof 1\ngoal g\n0 ",
        checked: b"checked: g from some_p every_p\n",
    },
    ShownCase {
        theory: IMPLIED,
        line: &["metis", "T", "--proof", "g", "f1", "f2"],
        begins: b"proof: by metis f1 f2\nsledge proof 1\ngoal g\n0 ",
        checked: b"checked: g from f1 f2\n",
    },
    ShownCase {
        theory: b"const p : bool; const q : bool; fact f : ~p | q; goal g : q assume h : p; goal k : q;",
        line: &["metis", "T", "g", "h", "f", "--proof"],
        begins: b"proof: by metis f h\nsledge proof 1\ngoal g\n0 ",
        checked: b"checked: g from f h\n",
    },
];

/// Whether `check` accepts all that `metis` prints with `--proof`.
fn is_checked_again(alloc: Global, case: &ShownCase) -> Result<bool, NoMemory> {
    let (found, shown) = told(alloc, case.theory, b"", case.line)?;
    let begins = found == 0 && shown.as_slice().starts_with(case.begins);
    let again = says(
        alloc,
        case.theory,
        shown.as_slice(),
        &["check", "T", "P"],
        0,
        case.checked,
    )?;
    Ok(begins && again)
}

/// Whether each shown proof is accepted.
fn all_are_checked_again(alloc: Global, cases: &[ShownCase]) -> Result<bool, NoMemory> {
    for case in cases {
        if !is_checked_again(alloc, case)? {
            return Ok(false);
        }
    }
    Ok(true)
}

#[test]
fn answers(rt: HostRuntime) -> Result<(), Fail> {
    let alloc = rt.alloc();
    assert!(rt; all_say(alloc, &CASES)?);
    assert_eq!(rt; status_over_failing_sink(alloc)?, 5);
    Ok(())
}

#[test]
fn checks_proofs(rt: HostRuntime) -> Result<(), Fail> {
    let alloc = rt.alloc();
    assert!(rt; all_are_checked(alloc, &PROOFS)?);
    assert!(rt; all_are_checked_again(alloc, &SHOWN)?);
    Ok(())
}
