//! The program `sledge`: hands its words, the machine's files and processes and its standard output to `run`.
#![tactic(auto)]

use child_launcher::ChildLauncher;
use race_outside::{FileShelf, StreamSink};
use sledge_engine::run;
use std::process::ExitCode;
use std::{env, io};

/// The status where the output failed.
const OUTPUT_FAILED: u8 = 5;

/// The status where memory ran out.
const NO_MEMORY: u8 = 6;

/// The words behind the program's name.
fn words(rt: &HostRuntime) -> io::Result<Vec<String>> {
    let mut words = Vec::new(rt.alloc());
    for word in env::args(rt)?.skip(1) {
        words.push(word)?;
    }
    Ok(words)
}

/// What is said where memory runs out before the words are there.
fn out_of_memory(rt: &HostRuntime) -> ExitCode {
    match rt.println("fault: memory") {
        Ok(()) => ExitCode::from(NO_MEMORY),
        Err(_) => ExitCode::from(OUTPUT_FAILED),
    }
}

/// Words that can't be read, since they are no text, are in no grammar: they are answered as no words are.
fn main(rt: HostRuntime) -> ExitCode {
    let words = match words(&rt) {
        Ok(words) => words,
        Err(e) => {
            if e.kind() == io::ErrorKind::OutOfMemory {
                return out_of_memory(&rt);
            }
            Vec::new(rt.alloc())
        }
    };
    let mut shelf = FileShelf::begin(&rt);
    let mut out = StreamSink::begin(io::writer(&rt));
    let launcher = ChildLauncher::begin(rt.alloc(), &rt);
    let done = run(
        &rt,
        rt.alloc(),
        words.as_slice(),
        &mut shelf,
        launcher,
        &mut out,
    );
    ExitCode::from(done.status)
}
