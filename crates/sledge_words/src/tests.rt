use crate::{Command, Line, WordsFault, read_words};
use std::alloc::Global;
use std::test::Fail;
use text_kit::NoMemory;

/// Words that are no line, one list a cause.
const REFUSED: [&[&str]; 34] = [
    &[],
    &[""],
    &["--help"],
    &["--", "gen", "1"],
    &["prove", "T"],
    &["metis", "T"],
    &["check", "T", "P", "Q"],
    &["chain", "T", "g"],
    &["batch"],
    &["gen", "0"],
    &["gen", "20001"],
    &["gen", "01"],
    &["gen", "+1"],
    &["drill", "1", "2"],
    &["filter", "T", "g", "--slice", "1", "--slice", "1"],
    &["filter", "T", "g", "--slice=1", "--slice=2"],
    &["metis", "T", "g", "--proof", "--proof"],
    &["metis", "T", "g", "--proof=yes"],
    &["metis", "T", "g", "--proof="],
    &["problem", "T", "g", "--slice"],
    &["problem", "T", "g", "--slice="],
    &["problem", "T", "g", "--slice", ""],
    &["problem", "T", "g", "--slice", "64"],
    &["problem", "T", "g", "--slice", "-1"],
    &["problem", "T", "g", "--slice=01"],
    &["prove", "T", "g", "--timeout", "0"],
    &["prove", "T", "g", "--prover", "--"],
    &["prove", "T", "g", "--prover=-x"],
    &["check", "T", "P", "--proof"],
    &["model", "T", "g", "--size", "5"],
    &["check", "T", "-"],
    &["check", "T", "-x"],
    &["check", "T", "--", "-"],
    &["check", "T", "--", ""],
];

/// A line and what it is read as.
struct Row {
    words: &'static [&'static str],
    command: Command,
    places: &'static [u32],
    number: u32,
    /// Slices, workers, budget, slice and size.
    values: [u32; 5],
    timeout: Option<u64>,
    prover: &'static [u8],
    proof: bool,
}

const DEFAULTS: [u32; 5] = [4, 4, 2000, 0, 2];

const READ: [Row; 9] = [
    Row {
        words: &[
            "prove",
            "T",
            "--slices",
            "64",
            "g",
            "--timeout=600000",
            "--prover=a=b",
            "--proof",
        ],
        command: Command::Prove,
        places: &[1, 4],
        number: 0,
        values: [64, 4, 2000, 0, 2],
        timeout: Some(600000),
        prover: b"a=b",
        proof: true,
    },
    Row {
        words: &["drill", "--workers=16", "20000"],
        command: Command::Drill,
        places: &[2],
        number: 20000,
        values: [4, 16, 2000, 0, 2],
        timeout: None,
        prover: b"sledge_atp",
        proof: false,
    },
    Row {
        words: &["metis", "T", "g", "f", "--budget", "10000", "f", "--proof"],
        command: Command::Metis,
        places: &[1, 2, 3, 6],
        number: 0,
        values: [4, 4, 10000, 0, 2],
        timeout: None,
        prover: b"sledge_atp",
        proof: true,
    },
    Row {
        words: &["check", "--", "-x", "--"],
        command: Command::Check,
        places: &[2, 3],
        number: 0,
        values: DEFAULTS,
        timeout: None,
        prover: b"sledge_atp",
        proof: false,
    },
    Row {
        words: &["filter", "--slice", "63", "T", "g"],
        command: Command::Filter,
        places: &[3, 4],
        number: 0,
        values: [4, 4, 2000, 63, 2],
        timeout: None,
        prover: b"sledge_atp",
        proof: false,
    },
    Row {
        words: &["gen", "1"],
        command: Command::Gen,
        places: &[1],
        number: 1,
        values: DEFAULTS,
        timeout: None,
        prover: b"sledge_atp",
        proof: false,
    },
    Row {
        words: &["model", "T", "g", "--size=1"],
        command: Command::Model,
        places: &[1, 2],
        number: 0,
        values: [4, 4, 2000, 0, 1],
        timeout: None,
        prover: b"sledge_atp",
        proof: false,
    },
    Row {
        words: &["refute", "T", "g"],
        command: Command::Refute,
        places: &[1, 2],
        number: 0,
        values: DEFAULTS,
        timeout: None,
        prover: b"sledge",
        proof: false,
    },
    Row {
        words: &["chain", "T", "g", "S"],
        command: Command::Chain,
        places: &[1, 2, 3],
        number: 0,
        values: DEFAULTS,
        timeout: None,
        prover: b"sledge_atp",
        proof: false,
    },
];

fn words(alloc: Global, line: &[&str]) -> Result<Vec<String>, NoMemory> {
    let mut words = Vec::new(alloc);
    for word in line {
        match String::from_str(alloc, word) {
            Ok(word) => match words.push(word) {
                Ok(()) => {}
                Err(_) => return Err(NoMemory),
            },
            Err(_) => return Err(NoMemory),
        }
    }
    Ok(words)
}

fn is_refused(alloc: Global, line: &[&str]) -> Result<bool, NoMemory> {
    let words = words(alloc, line)?;
    match read_words(alloc, words.as_slice()) {
        Ok(_) => Ok(false),
        Err(e) => Ok(e == WordsFault::Usage),
    }
}

fn is_read(line: &Line, row: &Row) -> bool {
    let values = [
        line.slices,
        line.workers,
        line.budget,
        line.slice,
        line.size,
    ];
    line.command == row.command
        && line.places.as_slice() == row.places
        && line.number == row.number
        && values == row.values
        && line.timeout == row.timeout
        && line.prover.as_slice() == row.prover
        && line.proof == row.proof
}

fn reads(alloc: Global, row: &Row) -> Result<bool, NoMemory> {
    let words = words(alloc, row.words)?;
    match read_words(alloc, words.as_slice()) {
        Ok(line) => Ok(is_read(&line, row)),
        Err(_) => Ok(false),
    }
}

#[test]
fn other_words_are_refused(rt: HostRuntime) -> Result<(), Fail> {
    for line in &REFUSED {
        assert!(rt; is_refused(rt.alloc(), *line)?);
    }
    Ok(())
}

#[test]
fn lines_are_read(rt: HostRuntime) -> Result<(), Fail> {
    for row in &READ {
        assert!(rt; reads(rt.alloc(), row)?);
    }
    Ok(())
}
