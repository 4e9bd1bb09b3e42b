use crate::feed::{Feed, FeedFault, give};
use race_outside::StartFault;
use std::alloc::Global;
use std::io::ErrorKind;
use std::process::{Child, ChildStdin, ChildStdout, Command, Processes, Stdio, SystemProcess};
use std::str;
use text_kit::{Bytes, Rows};

/// A child that runs, what it is still to read, and its output.
#[derive(Drop)]
pub(crate) struct Launched {
    pub(crate) child: Child<SystemProcess>,
    pub(crate) feed: Option<Feed>,
    pub(crate) output: ChildStdout,
}

// The word as text. A word that is no text can't be handed to a program here.
fn text_of(word: &Bytes) -> Result<&str, StartFault> {
    match str::from_utf8(word.as_slice()) {
        Ok(text) => Ok(text),
        Err(_) => Err(StartFault::Failed),
    }
}

// The program and its words, with pipes for its input and its output. What it writes as errors is lost.
fn command_of(alloc: Global, words: &[Bytes]) -> Result<Command, StartFault> {
    let Some((program, rest)) = words.split_first() else {
        return Err(StartFault::Failed);
    };
    let Ok(mut command) = Command::new(alloc, text_of(program)?) else {
        return Err(StartFault::NoMemory);
    };
    for word in rest {
        if command.arg(text_of(word)?).is_err() {
            return Err(StartFault::NoMemory);
        }
    }
    command.stdin(Stdio::piped());
    command.stdout(Stdio::piped());
    command.stderr(Stdio::null());
    Ok(command)
}

fn spawn<R: Processes<Started = SystemProcess>>(
    rt: &R,
    alloc: Global,
    args: &Rows<Bytes>,
) -> Result<Child<SystemProcess>, StartFault> {
    let mut command = command_of(alloc, args.as_slice())?;
    match command.spawn(rt) {
        Ok(child) => Ok(child),
        Err(cause) => {
            if cause.kind() == ErrorKind::OutOfMemory {
                Err(StartFault::NoMemory)
            } else {
                Err(StartFault::Failed)
            }
        }
    }
}

// Gives a child that was just started its text.
fn connect(
    alloc: Global,
    input: Option<ChildStdin>,
    output: Option<ChildStdout>,
    text: &Bytes,
) -> Result<(Option<Feed>, ChildStdout), StartFault> {
    let (Some(input), Some(output)) = (input, output) else {
        return Err(StartFault::Failed);
    };
    match give(alloc, input, text.as_slice()) {
        Ok(rest) => Ok((rest, output)),
        Err(FeedFault::Failed) => Err(StartFault::Failed),
        Err(FeedFault::NoMemory) => Err(StartFault::NoMemory),
    }
}

/// Makes a child end, and waits for it; whether both were done.
pub(crate) fn end(child: &mut Child<SystemProcess>) -> bool {
    let killed = child.kill().is_ok();
    child.wait().is_ok() && killed
}

/// Starts a child with these words, the program first, and this text to read. A child that can't be fed
/// is ended and waited for.
pub(crate) fn launch<R: Processes<Started = SystemProcess>>(
    rt: &R,
    alloc: Global,
    args: &Rows<Bytes>,
    text: &Bytes,
) -> Result<Launched, StartFault> {
    let mut child = spawn(rt, alloc, args)?;
    match connect(alloc, child.stdin.take(), child.stdout.take(), text) {
        Ok((feed, output)) => Ok(Launched {
            child,
            feed,
            output,
        }),
        Err(fault) => {
            end(&mut child);
            Err(fault)
        }
    }
}
