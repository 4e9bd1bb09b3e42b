ghost use Rattle.std.specs.Prelude.{◌≡◌, IfOk};

use crate::answers::{IMPLIED, held, words};
use crate::lasting::LastingLauncher;
use race_outside::{Child, MemoryLauncher, MemoryShelf, MemorySink};
use sledge_engine::run;
use std::alloc::Global;
use std::sync::Wait;
use std::sync::atomic::AtomicBool;
use std::test::Fail;
use std::thread::Threads;
use text_kit::{Bytes, NoMemory, Rows};

/// A proof from both facts of `IMPLIED`, with leaves that are no visible facts.
const BOTH: &[u8] = b"# SZS status Theorem
# SZS output start CNFRefutation
fof(f_f2, axiom, (~p|q), file('problem', f_f2)).
fof(goal, conjecture, (q), file('problem', goal)).
cnf(c2, plain, (q|~p), inference(split_conjunct,[status(thm)],[inference(fof_nnf,[status(thm)],[f_f2])])).
fof(f_f1, axiom, (p), file('problem', 'f_f1')).
fof(other, axiom, (r), file('problem', f_other)).
cnf(c4, negated_conjecture, (~q), inference(assume_negation,[status(cth)],[goal])).
cnf(c5, negated_conjecture, ($false), inference(cn,[status(thm)],[c2, c4, f_f1, other])).
# SZS output end CNFRefutation
";

/// A line over `IMPLIED`, what the children print, and what is answered where nothing fails.
#[derive(Clone, Copy, Drop)]
struct Case<'a> {
    line: &'a [&'a str],
    children: &'a [&'a [u8]],
    status: u8,
    text: &'a [u8],
}

const ONE: &[&str] = &["prove", "T", "g", "--slices", "1", "--workers", "1"];

const CASES: [Case; 10] = [
    Case {
        line: ONE,
        children: &[BOTH],
        status: 0,
        text: b"slot 0: proved f1 f2\nproof: by metis f1 f2\n",
    },
    Case {
        line: ONE,
        children: &[b"% SZS status GaveUp\n"],
        status: 1,
        text: b"slot 0: no status\nproof: not found\n",
    },
    Case {
        line: ONE,
        children: &[
            b"% SZS status Theorem\n% SZS output start Proof\nfof(f_f1, axiom, p, file('p, f_f1)).\n% SZS output end Proof\n",
        ],
        status: 1,
        text: b"slot 0: bad text at 71\nproof: not found\n",
    },
    Case {
        line: &["prove", "T", "g", "--slices", "8", "--workers", "4"],
        children: &[],
        status: 1,
        text: b"slot 0: no status\nslot 1: no status\nslot 2: no status\nslot 3: no status\nslot 4: no status\nslot 5: no status\nslot 6: no status\nslot 7: no status\nproof: not found\n",
    },
    Case {
        line: &["prove", "T", "g", "--slices", "1", "--timeout", "600000"],
        children: &[BOTH],
        status: 0,
        text: b"slot 0: proved f1 f2\nproof: by metis f1 f2\n",
    },
    Case {
        line: &["prove", "T", "g", "--slices", "3", "--workers", "1"],
        children: &[b"", b"", BOTH],
        status: 0,
        text: b"slot 0: no status\nslot 1: no status\nslot 2: proved f1 f2\nproof: by metis f1 f2\n",
    },
    Case {
        line: &["prove", "T", "g", "--slices", "3", "--workers", "1"],
        children: &[b"", BOTH],
        status: 0,
        text: b"slot 0: no status\nslot 1: proved f1 f2\nslot 2: cancelled\nproof: by metis f1 f2\n",
    },
    Case {
        line: &["prove", "T", "none"],
        children: &[],
        status: 4,
        text: b"fault: goal none\n",
    },
    Case {
        line: &["drill", "2", "--workers", "1"],
        children: &[],
        status: 1,
        text: b"facts 2\nchosen 2 2 2 2\nproof: not found\n",
    },
    Case {
        line: &["gen", "1"],
        children: &[],
        status: 0,
        text: b"const c0 : bool;\nfact f0 : c0;\ngoal g : c0;\n",
    },
];

/// What a child prints as its proof, and what is said of its slot.
#[derive(Clone, Copy, Drop)]
struct Printed<'a> {
    proof: &'a [u8],
    outcome: &'a [u8],
}

const PRINTED: [Printed; 9] = [
    Printed {
        proof: b"cnf(a, plain, p, b). cnf(b, plain, p, a). cnf(c, plain, $false, a).",
        outcome: b"saturated",
    },
    Printed {
        proof: b"\xff",
        outcome: b"bad text at 46",
    },
    Printed {
        proof: b"cnf(a, plain, (p], b).",
        outcome: b"bad text at 62",
    },
    Printed {
        proof: b"cnf(a, plain, p).",
        outcome: b"no proof",
    },
    Printed {
        proof: b"",
        outcome: b"no proof",
    },
    Printed {
        proof: b"cnf(c, plain, $false, nobody).",
        outcome: b"saturated",
    },
    Printed {
        proof: b"cnf(f_f1, axiom, p). cnf(f_f2, axiom, q). cnf(c, plain, $false, [f_f1, f_f2]).",
        outcome: b"proved f1 f2",
    },
    Printed {
        proof: b"cnf(c, plain, $false, inference(r, [], [f_f1:[bind(X, a)], theory(equality), f_f2])).",
        outcome: b"proved f1 f2",
    },
    Printed {
        proof: b"cnf(c, plain, $false, f_f1).",
        outcome: b"saturated",
    },
];

/// What the children print; the fetches, starts, puts and reads of each pipe that fail; and what is answered.
#[derive(Clone, Copy, Drop)]
struct Failing<'a> {
    slices: &'a str,
    children: &'a [&'a [u8]],
    fetches: &'a [u64],
    starts: &'a [u64],
    reads: &'a [u64],
    puts: &'a [u64],
    status: u8,
    text: &'a [u8],
}

const FAILING: [Failing; 6] = [
    Failing {
        slices: "1",
        children: &[BOTH],
        fetches: &[0],
        starts: &[],
        reads: &[],
        puts: &[],
        status: 3,
        text: b"fault: file T\n",
    },
    Failing {
        slices: "1",
        children: &[BOTH],
        fetches: &[],
        starts: &[],
        reads: &[],
        puts: &[0],
        status: 5,
        text: b"",
    },
    Failing {
        slices: "1",
        children: &[BOTH],
        fetches: &[],
        starts: &[],
        reads: &[0],
        puts: &[],
        status: 1,
        text: b"slot 0: read fault\nproof: not found\n",
    },
    Failing {
        slices: "1",
        children: &[BOTH],
        fetches: &[],
        starts: &[],
        reads: &[1],
        puts: &[],
        status: 1,
        text: b"slot 0: read fault\nproof: not found\n",
    },
    Failing {
        slices: "3",
        children: &[],
        fetches: &[],
        starts: &[0, 1, 2],
        reads: &[],
        puts: &[],
        status: 1,
        text: b"slot 0: no start\nslot 1: no start\nslot 2: no start\nproof: not found\n",
    },
    Failing {
        slices: "3",
        children: &[],
        fetches: &[],
        starts: &[1],
        reads: &[],
        puts: &[],
        status: 1,
        text: b"slot 0: no status\nslot 1: no start\nslot 2: no status\nproof: not found\n",
    },
];

fn numbers(alloc: Global, given: &[u64]) -> Result<Rows<u64>, NoMemory>
    ensures { IfOk result (λ it. it ≡ given.now) }
{
    match Vec::from_slice(alloc, given) {
        Ok(items) => Ok(Rows::from_vec(items)),
        Err(_) => Err(NoMemory),
    }
}

/// Children that print these texts, each of whose pipes fails at these reads.
fn children(alloc: Global, given: &[&[u8]], reads: &[u64]) -> Result<Rows<Child>, NoMemory> {
    let mut out = Rows::begin(alloc);
    for bytes in given {
        out.push(Child {
            bytes: Bytes::from_slice(alloc, bytes)?,
            fails: numbers(alloc, reads)?,
        })?;
    }
    Ok(out)
}

/// A shelf that holds `IMPLIED` under the name `T` and fails at these fetches.
fn shelf(alloc: Global, fetches: &[u64]) -> Result<MemoryShelf, NoMemory> {
    let mut files = Rows::begin(alloc);
    files.push(held(alloc, b"T", IMPLIED)?)?;
    Ok(MemoryShelf::begin(files, numbers(alloc, fetches)?))
}

/// Whether each of so many children was waited for once.
fn is_each_once(waits: &[u64], starts: usize) -> bool {
    waits.len() == starts && (0..starts).all(|id| waits.contains(&(id as u64)))
}

/// A line over a shelf, a launcher and a sink, and what is answered.
#[derive(Drop)]
struct Asked<'a> {
    line: &'a [&'a str],
    shelf: MemoryShelf,
    launcher: MemoryLauncher,
    out: MemorySink,
    status: u8,
    text: &'a [u8],
}

/// Whether a line is answered as it is to be, and each child that was started was waited for once.
#[tactic(none)]
fn is_answered<R: Threads + Wait + Sync>(
    rt: &R,
    alloc: Global,
    asked: Asked,
) -> Result<bool, NoMemory> {
    let Asked {
        line,
        mut shelf,
        launcher,
        mut out,
        status,
        text,
    } = asked;
    let words = words(alloc, line)?;
    let done = run(rt, alloc, words.as_slice(), &mut shelf, launcher, &mut out);
    let waited = is_each_once(done.launcher.waits(), done.launcher.orders().len());
    Ok(waited && done.status == status && out.taken().as_slice() == text)
}

/// Whether a case is answered as it says.
fn says<R: Threads + Wait + Sync>(rt: &R, alloc: Global, case: &Case) -> Result<bool, NoMemory> {
    let children = children(alloc, case.children, &[])?;
    is_answered(
        rt,
        alloc,
        Asked {
            line: case.line,
            shelf: shelf(alloc, &[])?,
            launcher: MemoryLauncher::begin(alloc, children, Rows::begin(alloc)),
            out: MemorySink::begin(alloc, Rows::begin(alloc)),
            status: case.status,
            text: case.text,
        },
    )
}

/// Whether the report of one slot whose child prints this begins with this outcome.
fn says_of<R: Threads + Wait + Sync>(
    rt: &R,
    alloc: Global,
    proof: &[u8],
    outcome: &[u8],
) -> Result<bool, NoMemory> {
    let mut bytes = Bytes::from_slice(alloc, b"% SZS status Theorem\n% SZS output start Proof\n")?;
    bytes.append(proof)?;
    bytes.append(b"\n% SZS output end Proof\n")?;
    let mut text = Bytes::from_slice(alloc, b"slot 0: ")?;
    text.append(outcome)?;
    let is_proved = outcome.starts_with(b"proved");
    if is_proved {
        text.append(b"\nproof: by metis f1 f2\n")?;
    } else {
        text.append(b"\nproof: not found\n")?;
    }
    says(
        rt,
        alloc,
        &Case {
            line: ONE,
            children: &[bytes.as_slice()],
            status: if is_proved { 0 } else { 1 },
            text: text.as_slice(),
        },
    )
}

/// Whether what a child prints that opens this many brackets is answered with this outcome.
fn says_of_brackets<R: Threads + Wait + Sync>(
    rt: &R,
    alloc: Global,
    brackets: u32,
    outcome: &[u8],
) -> Result<bool, NoMemory> {
    let mut proof = Bytes::from_slice(alloc, b"cnf(c, plain, ")?;
    for _ in 0..brackets {
        proof.push(b'(')?;
    }
    says_of(rt, alloc, proof.as_slice(), outcome)
}

/// Whether a failure is answered as it says.
fn says_over<R: Threads + Wait + Sync>(
    rt: &R,
    alloc: Global,
    failing: &Failing,
) -> Result<bool, NoMemory> {
    let children = children(alloc, failing.children, failing.reads)?;
    is_answered(
        rt,
        alloc,
        Asked {
            line: &[
                "prove",
                "T",
                "g",
                "--workers",
                "1",
                "--slices",
                failing.slices,
            ],
            shelf: shelf(alloc, failing.fetches)?,
            launcher: MemoryLauncher::begin(alloc, children, numbers(alloc, failing.starts)?),
            out: MemorySink::begin(alloc, numbers(alloc, failing.puts)?),
            status: failing.status,
            text: failing.text,
        },
    )
}

/// A proof from both facts, filled up to so many bytes.
fn filled(alloc: Global, most: usize) -> Result<Bytes, NoMemory> {
    let mut bytes = Bytes::from_slice(alloc, BOTH)?;
    match vec![in alloc; b'%'; most.saturating_sub(BOTH.len())] {
        Ok(filling) => bytes.append(filling.as_slice())?,
        Err(_) => return Err(NoMemory),
    }
    Ok(bytes)
}

/// Whether a line is answered as it is to be over children that run until one is killed, and each that was started was
/// killed and waited for.
#[tactic(none)]
fn is_answered_over<R: Threads + Wait + Sync>(
    rt: &R,
    alloc: Global,
    line: &[&str],
    notes: MemoryLauncher,
    status: u8,
    text: &[u8],
) -> Result<bool, NoMemory> {
    let words = words(alloc, line)?;
    let mut shelf = shelf(alloc, &[])?;
    let killed = AtomicBool::new(false);
    let launcher = LastingLauncher {
        notes,
        killed: &killed,
    };
    let mut out = MemorySink::begin(alloc, Rows::begin(alloc));
    let done = run(rt, alloc, words.as_slice(), &mut shelf, launcher, &mut out);
    let notes = &done.launcher.notes;
    let started = notes.orders().len();
    let ended = is_each_once(notes.kills(), started) && is_each_once(notes.waits(), started);
    Ok(ended && done.status == status && out.taken().as_slice() == text)
}

/// A launcher whose second moment is 100 milliseconds after its first, and whose starts with these numbers are refused.
fn timed(alloc: Global, starts: &[u64]) -> Result<MemoryLauncher, NoMemory> {
    let launcher = MemoryLauncher::begin(alloc, Rows::begin(alloc), numbers(alloc, starts)?);
    Ok(launcher.with_moments(numbers(alloc, &[5, 105])?))
}

#[test]
fn races_are_answered(rt: HostRuntime) -> Result<(), Fail> {
    for case in &CASES {
        assert!(rt; says(&rt, rt.alloc(), case)?);
    }
    Ok(())
}

/// The same whatever the order in which the workers come to the board.
#[test]
fn silent_children_are_answered_alike(rt: HostRuntime) -> Result<(), Fail> {
    for _ in 0..100 {
        assert!(rt; says(&rt, rt.alloc(), &CASES[3])?);
    }
    Ok(())
}

#[test]
fn whatever_children_print(rt: HostRuntime) -> Result<(), Fail> {
    for printed in &PRINTED {
        assert!(rt; says_of(&rt, rt.alloc(), printed.proof, printed.outcome)?);
    }
    assert!(rt; says_of_brackets(&rt, rt.alloc(), 4_096, b"bad text at 4155")?);
    Ok(())
}

#[test]
fn whatever_fails(rt: HostRuntime) -> Result<(), Fail> {
    for failing in &FAILING {
        assert!(rt; says_over(&rt, rt.alloc(), failing)?);
    }
    Ok(())
}

#[test]
fn texts_are_read_up_to_a_length(rt: HostRuntime) -> Result<(), Fail> {
    let alloc = rt.alloc();
    let longest = filled(alloc, 4_194_304)?;
    let case = Case {
        line: ONE,
        children: &[longest.as_slice()],
        status: 0,
        text: b"slot 0: proved f1 f2\nproof: by metis f1 f2\n",
    };
    assert!(rt; says(&rt, alloc, &case)?);
    let longer = filled(alloc, 4_194_305)?;
    let case = Case {
        line: ONE,
        children: &[longer.as_slice()],
        status: 1,
        text: b"slot 0: too long\nproof: not found\n",
    };
    assert!(rt; says(&rt, alloc, &case)?);
    Ok(())
}

#[test]
fn races_end_at_the_limit_of_time(rt: HostRuntime) -> Result<(), Fail> {
    let alloc = rt.alloc();
    let told = is_answered_over(
        &rt,
        alloc,
        &[
            "prove",
            "T",
            "g",
            "--slices",
            "2",
            "--workers",
            "1",
            "--timeout",
            "100",
        ],
        timed(alloc, &[])?,
        1,
        b"slot 0: timed out\nslot 1: timed out\nproof: not found\n",
    )?;
    assert!(rt; told);
    Ok(())
}

#[test]
fn starts_want_memory(rt: HostRuntime) -> Result<(), Fail> {
    let alloc = rt.alloc();
    let told = is_answered_over(
        &rt,
        alloc,
        &["prove", "T", "g", "--slices", "2", "--workers", "1"],
        timed(alloc, &[0, 1])?,
        6,
        b"slot 0: out of memory\nslot 1: out of memory\nproof: out of memory\n",
    )?;
    assert!(rt; told);
    Ok(())
}
