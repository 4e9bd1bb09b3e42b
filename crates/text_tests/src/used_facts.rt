use std::alloc::Global;
use std::test::Fail;
use text_kit::{Bytes, NoMemory, Rows};
use tstp_read::{UsedFault, used};

/// What an output answers.
#[derive(Clone, Copy)]
enum Want<'a> {
    /// The names, with a space behind each.
    Names(&'a [u8]),
    NoStatus,
    NoProof,
    Bad(u64),
}

#[derive(Clone, Copy)]
struct Case<'a> {
    text: &'a [u8],
    want: Want<'a>,
}

const PROOF: &[u8] =
    b"# SZS status Theorem\n# SZS output start CNFRefutation\nfof(f_f2, axiom, (~p|q), file('problem', f_f2)).\nfof(goal, conjecture, (q), file('problem', goal)).\ncnf(c2, plain, (q|~p), inference(split_conjunct,[status(thm)],[inference(fof_nnf,[status(thm)],[f_f2])])).\nfof(f_f1, axiom, (p), file('problem', 'f_f1')).\nfof(other, axiom, (r), file('problem', f_other)).\ncnf(c4, negated_conjecture, (~q), inference(assume_negation,[status(cth)],[goal])).\ncnf(c5, negated_conjecture, ($false), inference(cn,[status(thm)],[c2, c4, f_f1, other])).\n# SZS output end CNFRefutation\n";

/// The places of the last line, and of `c2, ` and of what stands behind it in the last statement.
const LAST_LINE: usize = 533;

const SECOND: usize = 509;

const THIRD: usize = 513;

const STATEMENTS: &[Case] = &[
    Case {
        text: b"cnf(a, plain, p, b). cnf(b, plain, p, a). cnf(c, plain, $false, a).",
        want: Want::Names(b""),
    },
    Case {
        text: b"\xff",
        want: Want::Bad(46),
    },
    Case {
        text: b"cnf(a, plain, (p], b).",
        want: Want::Bad(62),
    },
    Case {
        text: b"cnf(a, plain, p).",
        want: Want::NoProof,
    },
    Case {
        text: b"",
        want: Want::NoProof,
    },
    Case {
        text: b"cnf(c, plain, $false, nobody).",
        want: Want::Names(b"nobody "),
    },
    Case {
        text: b"cnf(f_f1, axiom, p). cnf(f_f2, axiom, q). cnf(c, plain, $false, [f_f1, f_f2]).",
        want: Want::Names(b"f_f1 f_f2 "),
    },
    Case {
        text: b"cnf(c, plain, $false, inference(r, [], [f_f1:[bind(X, a)], theory(equality), f_f2])).",
        want: Want::Names(b"f_f1 f_f2 "),
    },
    // The first statement that is `$false` counts, without its brackets; a quoted `$false` is another.
    Case {
        text: b"cnf(a, plain, '$false', x). cnf(b, plain, ([$false]), y). cnf(c, plain, $false, z).",
        want: Want::Names(b"y "),
    },
    // Quotes, escapes, comments.
    Case {
        text: b"cnf('a\\'b', axiom, p). % [ '\ncnf(c, plain, # (\n$false, [\"a'b\", /* ' */ 'd', /**/ d]).",
        want: Want::Names(b"a'b d "),
    },
    Case {
        text: b"cnf(c, plain, $false, /*/).",
        want: Want::Bad(68),
    },
    Case {
        text: b"cnf(c, plain, $false, 'a\\\n').",
        want: Want::Bad(68),
    },
    // Files, inferences and lists that give something, and others that don't.
    Case {
        text: b"cnf(c, plain, $false, [file(, b), file(f, a, x, y), 'file'(f, 'd'), file(e), file(f, g h), file[f, i]]).",
        want: Want::Names(b"a b d "),
    },
    Case {
        text: b"cnf(c, plain, $false, [inference(r, s, [a]), inference(r, [b]), inference(r, s, d), inference(r, s, [e], t), [[f], , g:h, :i]]).",
        want: Want::Names(b"a f g "),
    },
    Case {
        text: b"cnf(c, plain, $false, a:b). cnf(d, plain, p).",
        want: Want::Names(b""),
    },
    // A statement without a source, further parts, a name that stands twice.
    Case {
        text: b"cnf(c, plain, $false). cnf(d, plain, p).",
        want: Want::Names(b"c "),
    },
    Case {
        text: b"cnf(a, axiom, p, file(f, x)). cnf(a, axiom, q, file(f, y), [z]). cnf(c, plain, $false, a, b).",
        want: Want::Names(b"x y "),
    },
    // Statements that stop too early.
    Case {
        text: b"cnf(c, plain, $false)",
        want: Want::Bad(68),
    },
    Case {
        text: b"cnf(c, plain, $false, ).",
        want: Want::Bad(68),
    },
    Case {
        text: b"cnf(c, 'plain', $false).",
        want: Want::Bad(53),
    },
    Case {
        text: b"cnf(c, plain, $false]).",
        want: Want::Bad(66),
    },
];

const OUTPUTS: &[Case] = &[
    Case {
        text: b"",
        want: Want::NoStatus,
    },
    Case {
        text: b"% SZS status GaveUp",
        want: Want::NoStatus,
    },
    Case {
        text: b"%SZS status Theorem\n",
        want: Want::NoStatus,
    },
    Case {
        text: b"% SZS status  Theorem\n",
        want: Want::NoStatus,
    },
    Case {
        text: b"# SZS status GaveUp\n# SZS status Theorem\n",
        want: Want::NoStatus,
    },
    Case {
        text: b"% SZS status Theorem7\n",
        want: Want::NoProof,
    },
    Case {
        text: b"# hello\n \t# \t SZS status Unsatisfiable\r\n",
        want: Want::NoProof,
    },
    Case {
        text: b"% SZS status ContradictoryAxioms\n% SZS output end P\n% SZS output start P\n",
        want: Want::NoProof,
    },
    Case {
        text: b"% SZS output start P\r\ncnf(c, p, $false).\r\n # SZS output end\n% SZS status Theorem",
        want: Want::Names(b"c "),
    },
    Case {
        text: b"% SZS status Theorem\n% SZS output start Proof\nfof(f_f1, axiom, p, file('p, f_f1)).\n% SZS output end Proof\n",
        want: Want::Bad(71),
    },
];

fn same_names(names: &Rows<Bytes>, want: &[u8]) -> bool {
    let mut rest = want;
    for name in names.as_slice() {
        let bytes = name.as_slice();
        let len = bytes.len();
        if rest.len() <= len || !rest.starts_with(bytes) || rest[len] != b' ' {
            return false;
        }
        rest = &rest[len + 1..];
    }
    rest.len() == 0
}

#[tactic(none)]
fn answers(alloc: Global, text: &[u8], want: Want) -> bool {
    match (used(alloc, text), want) {
        (Ok(names), Want::Names(list)) => same_names(&names, list),
        (Err(UsedFault::NoStatus), Want::NoStatus) => true,
        (Err(UsedFault::NoProof), Want::NoProof) => true,
        (Err(UsedFault::BadText { at }), Want::Bad(place)) => at == place,
        _ => false,
    }
}

/// The text as a proof part.
fn framed(alloc: Global, text: &[u8]) -> Result<Bytes, NoMemory> {
    let mut out = Bytes::from_slice(alloc, b"% SZS status Theorem\n% SZS output start Proof\n")?;
    out.append(text)?;
    out.append(b"\n% SZS output end Proof\n")?;
    Ok(out)
}

#[tactic(none)]
fn frames_answer(alloc: Global, case: Case) -> bool {
    match framed(alloc, case.text) {
        Ok(text) => answers(alloc, text.as_slice(), case.want),
        Err(NoMemory) => false,
    }
}

fn all_frames(alloc: Global, cases: &[Case]) -> usize {
    let mut wrong = 0;
    for (i, case) in cases.iter().enumerate() {
        if !frames_answer(alloc, *case) && wrong == 0 {
            wrong = i + 1;
        }
    }
    wrong
}

fn all_outputs(alloc: Global, cases: &[Case]) -> usize {
    let mut wrong = 0;
    for (i, case) in cases.iter().enumerate() {
        if !answers(alloc, case.text, case.want) && wrong == 0 {
            wrong = i + 1;
        }
    }
    wrong
}

/// Brackets, as many as there may be and one more, behind the beginning of a statement.
fn nested(alloc: Global, depth: usize) -> Result<Bytes, NoMemory> {
    let mut out = Bytes::from_slice(alloc, b"cnf(c, plain, ")?;
    for _ in 0..depth {
        out.push(b'(')?;
    }
    Ok(out)
}

#[tactic(none)]
fn nesting_answers(alloc: Global, depth: usize, place: u64) -> bool {
    match nested(alloc, depth) {
        Ok(text) => frames_answer(
            alloc,
            Case {
                text: text.as_slice(),
                want: Want::Bad(place),
            },
        ),
        Err(NoMemory) => false,
    }
}

/// The proof of the first test, filled up to a size.
fn filled(alloc: Global, size: usize) -> Result<Bytes, NoMemory> {
    let mut out = Bytes::from_slice(alloc, PROOF)?;
    for _ in PROOF.len()..size {
        out.push(b'%')?;
    }
    Ok(out)
}

#[tactic(none)]
fn filled_answers(alloc: Global, size: usize) -> bool {
    match filled(alloc, size) {
        Ok(text) => answers(
            alloc,
            text.as_slice(),
            Want::Names(b"f_f1 f_f2 f_other goal "),
        ),
        Err(NoMemory) => false,
    }
}

/// The text up to a place.
fn front(text: &[u8], at: usize) -> &[u8] {
    if at <= text.len() { &text[..at] } else { text }
}

/// The text from a place on.
fn rest(text: &[u8], at: usize) -> &[u8] {
    if at <= text.len() { &text[at..] } else { &[] }
}

/// The proof without the first parent of its last statement.
#[tactic(none)]
fn shortened(alloc: Global) -> bool {
    match Bytes::from_slice(alloc, front(PROOF, SECOND)) {
        Ok(mut text) => match text.append(rest(PROOF, THIRD)) {
            Ok(()) => answers(alloc, text.as_slice(), Want::Names(b"f_f1 f_other goal ")),
            Err(NoMemory) => false,
        },
        Err(NoMemory) => false,
    }
}

#[test]
fn proofs(rt: HostRuntime) -> Result<(), Fail> {
    let alloc = rt.alloc();
    assert!(rt; answers(alloc, PROOF, Want::Names(b"f_f1 f_f2 f_other goal ")));
    assert!(rt; answers(alloc, front(PROOF, LAST_LINE), Want::NoProof));
    assert!(rt; shortened(alloc));
    assert!(rt; filled_answers(alloc, 4_194_304));
    assert!(rt; nesting_answers(alloc, 4096, 4155));
    assert!(rt; nesting_answers(alloc, 4095, 4156));
    Ok(())
}

#[test]
fn texts(rt: HostRuntime) -> Result<(), Fail> {
    let alloc = rt.alloc();
    assert_eq!(rt; all_frames(alloc, STATEMENTS), 0);
    assert_eq!(rt; all_outputs(alloc, OUTPUTS), 0);
    Ok(())
}
