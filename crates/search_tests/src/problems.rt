use std::alloc::Global;
use std::test::Fail;
use text_kit::Bytes;
use tptp_syntax::{TptpFault, read_problem};

/// A text, and the byte at which no problem goes on, or none.
#[derive(Clone, Copy)]
struct Case<'a> {
    text: &'a [u8],
    bad: Option<u64>,
}

const CASES: &[Case] = &[
    Case {
        text: b"fof(f_f2, axiom, ((~ holds(t0(c_p))) | holds(t0(c_q)))).\nfof(f_f1, axiom, holds(t0(c_p))).\nfof(goal, conjecture, holds(t0(c_q))).\n",
        bad: None,
    },
    Case {
        text: b"",
        bad: None,
    },
    Case {
        text: b"cnf('a b', plain, ((~ p(X) | X != f(Y))), file('x', [y, (z)]), q).",
        bad: None,
    },
    Case {
        text: b"/* a */ fof(a, b, ! [X, Y] : ? [X] : p(X, 'p\\'') <~> ($true)). % end",
        bad: None,
    },
    Case {
        text: b"fof(a, b, p & q | r).",
        bad: Some(16),
    },
    Case {
        text: b"fof(a, b, p => q => r).",
        bad: Some(17),
    },
    Case {
        text: b"fof(a, b, (! [X] : p(X)) & q(X)).",
        bad: Some(29),
    },
    Case {
        text: b"fof(a, conjecture, p). cnf(b, conjecture, q).",
        bad: Some(30),
    },
    Case {
        text: b"cnf(a, b, (p) | q).",
        bad: Some(14),
    },
    Case {
        text: b"cnf(a, b, ~ X != Y).",
        bad: Some(14),
    },
    Case {
        text: b"fof(a, b, p) # fof",
        bad: Some(13),
    },
    Case {
        text: b"fof(a, b, 'p).",
        bad: Some(10),
    },
    Case {
        text: b"fof(a, b, p).\n/* open",
        bad: Some(14),
    },
    Case {
        text: b"fof(a, b, p",
        bad: Some(11),
    },
    Case {
        text: b"fof(a, b, $truth).",
        bad: Some(10),
    },
];

/// What a text that isn't too long answers: nothing where it is read.
fn fault(alloc: Global, text: &[u8]) -> Option<TptpFault> {
    if text.len() < 0xffff_ffff {
        read_problem(alloc, text).err()
    } else {
        Some(TptpFault::NoMemory)
    }
}

fn is_answered(alloc: Global, text: &[u8], bad: Option<u64>) -> bool {
    match (fault(alloc, text), bad) {
        (None, None) => true,
        (Some(TptpFault::BadText { at }), Some(place)) => at == place,
        _ => false,
    }
}

#[test]
fn faults_at_their_bytes(rt: HostRuntime) -> Result<(), Fail> {
    let alloc = rt.alloc();
    for case in CASES {
        assert!(rt; is_answered(alloc, case.text, case.bad));
    }
    Ok(())
}

/// A statement with so many brackets around its atom beside its own.
fn nested(alloc: Global, levels: usize) -> Result<Bytes, Fail> {
    let mut text = Bytes::begin(alloc);
    text.append(b"fof(a, b, ")?;
    for _ in 0..levels {
        text.push(b'(')?;
    }
    text.push(b'p')?;
    for _ in 0..levels {
        text.push(b')')?;
    }
    text.append(b").")?;
    Ok(text)
}

#[test]
fn nests_to_its_limit(rt: HostRuntime) -> Result<(), Fail> {
    let alloc = rt.alloc();
    // The statement's own bracket is the first.
    let deep = nested(alloc, 4_095)?;
    assert!(rt; is_answered(alloc, deep.as_slice(), None));
    let deeper = nested(alloc, 4_096)?;
    assert!(rt; is_answered(alloc, deeper.as_slice(), Some(4_105)));
    Ok(())
}

/// A statement with so many `~` before its atom.
fn negated(alloc: Global, times: usize) -> Result<Bytes, Fail> {
    let mut text = Bytes::begin(alloc);
    text.append(b"fof(a, b, ")?;
    for _ in 0..times {
        text.append(b"~")?;
    }
    text.append(b"p).")?;
    Ok(text)
}

#[test]
fn long_chains_hold(rt: HostRuntime) -> Result<(), Fail> {
    let alloc = rt.alloc();
    let chain = negated(alloc, 4_999)?;
    assert!(rt; is_answered(alloc, chain.as_slice(), None));
    let longer = negated(alloc, 100_000)?;
    assert!(rt; fault(alloc, longer.as_slice()) == Some(TptpFault::NoMemory));
    Ok(())
}
