use fol_prover::child;
use race_outside::{Child, Launcher, MemoryLauncher, MemorySink};
use std::alloc::Global;
use std::test::Fail;
use text_kit::{Bytes, Rows};

/// What the child is run on: its words, its input, and which read and which put fail.
#[derive(Clone, Copy, Drop)]
struct Run<'a> {
    words: &'a [&'a str],
    text: &'a [u8],
    bad_reads: &'a [u64],
    bad_puts: &'a [u64],
}

fn numbers(alloc: Global, from: &[u64]) -> Result<Rows<u64>, Fail> {
    Ok(Rows::from_vec(Vec::from_slice(alloc, from)?))
}

fn words_of(alloc: Global, from: &[&str]) -> Result<Vec<String>, Fail> {
    let mut words = Vec::new(alloc);
    for word in from {
        words.push(String::from_str(alloc, *word)?)?;
    }
    Ok(words)
}

/// The child's status and its text.
fn answer(alloc: Global, run: &Run) -> Result<(u8, Bytes), Fail> {
    let mut children = Rows::begin(alloc);
    children.push(Child {
        bytes: Bytes::from_slice(alloc, run.text)?,
        fails: numbers(alloc, run.bad_reads)?,
    })?;
    let mut launcher = MemoryLauncher::begin(alloc, children, Rows::begin(alloc));
    let args = Rows::begin(alloc);
    let (_id, mut input) = launcher.start(&args, &Bytes::begin(alloc))?;
    let mut out = MemorySink::begin(alloc, numbers(alloc, run.bad_puts)?);
    let words = words_of(alloc, run.words)?;
    let status = child(alloc, words.as_slice(), &mut input, &mut out);
    Ok((status, out.taken().copy(alloc)?))
}

/// Whether the child answers a text so, with a budget of picks and age 1.
fn answers(
    alloc: Global,
    budget: &str,
    text: &[u8],
    status: u8,
    wanted: &[u8],
) -> Result<bool, Fail> {
    let (given, told) = answer(
        alloc,
        &Run {
            words: &["--budget", budget, "--age", "1"],
            text,
            bad_reads: &[],
            bad_puts: &[],
        },
    )?;
    Ok(given == status && told.as_slice() == wanted)
}

const GAVE_UP: &[u8] = b"% SZS status GaveUp\n";

const ERROR: &[u8] = b"% SZS status Error\n";

const CHAIN: &[u8] = b"cnf(a, axiom, ~ p | q). cnf(b, axiom, p). fof(g, conjecture, q).";

const PROOF: &[u8] = b"% SZS status Theorem
% SZS output start Proof
fof(a, axiom, ((~ p) | q), file('stdin', a)).
fof(b, axiom, p, file('stdin', b)).
fof(g, conjecture, q, file('stdin', g)).
cnf(c0, plain, ((~ p) | q), inference(clausify, [], [a])).
cnf(c1, plain, (p), inference(clausify, [], [b])).
cnf(c2, plain, ((~ q)), inference(clausify, [], [g])).
cnf(c3, plain, ((~ p)), inference(resolve, [], [c0, c2])).
cnf(c4, plain, $false, inference(resolve, [], [c1, c3])).
% SZS output end Proof
";

#[test]
fn ends_with_each_status(rt: HostRuntime) -> Result<(), Fail> {
    let alloc = rt.alloc();
    assert!(rt; answers(alloc, "4", CHAIN, 0, PROOF)?);
    assert!(rt; answers(alloc, "3", CHAIN, 1, GAVE_UP)?, "spent");
    assert!(rt;
        answers(alloc, "9", b"fof(a, axiom, p).", 1, GAVE_UP)?,
        "saturated"
    );
    assert!(rt; answers(alloc, "9", b"", 1, GAVE_UP)?, "no statements");
    assert!(rt;
        answers(alloc, "9", b"fof(a, axiom, p & q | r).", 4, ERROR)?,
        "no problem"
    );
    assert!(rt; answers(alloc, "0", CHAIN, 2, b"")?, "no budget");
    assert!(rt; answers(alloc, "01", CHAIN, 2, b"")?, "a leading zero");
    Ok(())
}

#[test]
fn counts_clauses_before_it_searches(rt: HostRuntime) -> Result<(), Fail> {
    let alloc = rt.alloc();
    let nest = b"fof(a,axiom,p<=>(p<=>(p<=>(p<=>(p<=>(p<=>(p<=>(p<=>(p<=>(p<=>(p<=>p))))))))))).";
    assert!(rt; answers(alloc, "9", nest, 1, GAVE_UP)?);
    Ok(())
}

#[test]
fn tells_failures_of_its_streams(rt: HostRuntime) -> Result<(), Fail> {
    let alloc = rt.alloc();
    let mut run = Run {
        words: &["--budget", "9", "--age", "1"],
        text: CHAIN,
        bad_reads: &[1],
        bad_puts: &[],
    };
    let (status, told) = answer(alloc, &run)?;
    assert_eq!(rt; status, 3);
    assert_eq!(rt; told.as_slice(), ERROR);
    run.bad_reads = &[];
    run.bad_puts = &[0];
    let (status, told) = answer(alloc, &run)?;
    assert_eq!(rt; status, 5);
    assert_eq!(rt; told.as_slice(), b"".as_slice());
    Ok(())
}
