//! The program `sledge_atp`: hands its words and the machine's standard streams to `child`.
#![tactic(auto)]

use fol_prover::child;
use race_outside::{StreamPipe, StreamSink};
use std::process::ExitCode;
use std::{env, io};

/// The status where the output failed.
const OUTPUT_FAILED: u8 = 5;

/// The status where memory ran out.
const NO_MEMORY: u8 = 6;

/// The words behind the program's name.
fn words(rt: &HostRuntime) -> io::Result<Vec<String>> {
    let mut words = Vec::new(rt.alloc());
    for word in env::args(rt)?.skip(1) {
        words.push(word)?;
    }
    Ok(words)
}

/// What is said where memory runs out before the words are there.
fn out_of_memory(rt: &HostRuntime) -> ExitCode {
    match rt.println("% SZS status MemoryOut") {
        Ok(()) => ExitCode::from(NO_MEMORY),
        Err(_) => ExitCode::from(OUTPUT_FAILED),
    }
}

fn reply(rt: &HostRuntime, words: &[String]) -> ExitCode {
    let mut input = StreamPipe::begin(rt.reader());
    let mut out = StreamSink::begin(io::writer(rt));
    ExitCode::from(child(rt.alloc(), words, &mut input, &mut out))
}

/// Words that can't be read, since they are no text, are refused as no words are.
fn main(rt: HostRuntime) -> ExitCode {
    match words(&rt) {
        Ok(words) => reply(&rt, words.as_slice()),
        Err(e) => {
            if e.kind() == io::ErrorKind::OutOfMemory {
                out_of_memory(&rt)
            } else {
                reply(&rt, &[])
            }
        }
    }
}
