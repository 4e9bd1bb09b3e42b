use super::*;
use race_outside::{Chunk, Launcher, Pipe, StartFault};
use std::alloc::Global;
use std::test::Fail;
use text_kit::{Bytes, NoMemory, Rows};

/// So many bytes are asked for at once.
const PIECE: usize = 65_536;

fn words(alloc: Global, from: &[&str]) -> Result<Rows<Bytes>, NoMemory> {
    let mut words = Rows::begin(alloc);
    for word in from {
        words.push(Bytes::from_slice(alloc, word.as_bytes())?)?;
    }
    Ok(words)
}

fn text(alloc: Global, count: u64) -> Result<Bytes, NoMemory> {
    let mut text = Bytes::begin(alloc);
    for i in 0..count {
        text.push((i % 251) as u8)?;
    }
    Ok(text)
}

/// All that a pipe gives, and whether it failed.
fn drained<P: Pipe>(alloc: Global, pipe: &mut P) -> Result<(Bytes, bool), NoMemory> {
    let mut bytes = Bytes::begin(alloc);
    let mut piece = [0u8; PIECE];
    for _ in 0..u64::MAX {
        match pipe.read(&mut piece) {
            Chunk::Got(count) => bytes.append(&piece[..count.min(PIECE)])?,
            Chunk::End => return Ok((bytes, false)),
            Chunk::Failed => return Ok((bytes, true)),
        }
    }
    Ok((bytes, true))
}

/// What a child gives that is started with these words and this text, and maybe killed at once, and whether
/// its pipe failed.
fn run<L: Launcher>(
    alloc: Global,
    launcher: &mut L,
    program: &[&str],
    text: &Bytes,
    is_killed: bool,
) -> Result<(Bytes, bool), Fail> {
    let (id, mut pipe) = launcher.start(&words(alloc, program)?, text)?;
    if is_killed {
        launcher.kill(id);
    }
    let given = drained(alloc, &mut pipe)?;
    launcher.reap(id);
    Ok(given)
}

#[test]
fn cat_gives_back_what_it_reads(rt: HostRuntime) -> Result<(), Fail> {
    let alloc = rt.alloc();
    let mut launcher = ChildLauncher::begin(alloc, &rt);
    for count in [0, 100_000, 300_000] {
        let sent = text(alloc, count)?;
        let (bytes, failed) = run(alloc, &mut launcher, &["cat"], &sent, false)?;
        assert!(rt; !failed && bytes.as_slice() == sent.as_slice());
    }
    assert_eq!(rt; launcher.fault_count(), 0);
    assert!(rt; launcher.now() <= launcher.now());
    Ok(())
}

#[test]
fn children_of_other_kinds(rt: HostRuntime) -> Result<(), Fail> {
    let alloc = rt.alloc();
    let mut launcher = ChildLauncher::begin(alloc, &rt);
    let sent = text(alloc, 300_000)?;
    let missing = launcher.start(&words(alloc, &["no such program"])?, &sent);
    assert!(rt; matches!(missing, Err(StartFault::Failed)));
    assert_eq!(rt; launcher.fault_count(), 1);
    let (bytes, failed) = run(alloc, &mut launcher, &["sleep", "1000"], &sent, true)?;
    assert!(rt; failed && bytes.len() == 0, "it never reads, and is killed");
    let zeros = ["head", "-c", "5242880", "/dev/zero"];
    let (bytes, failed) = run(alloc, &mut launcher, &zeros, &Bytes::begin(alloc), false)?;
    assert!(rt; !failed && bytes.len() == 5_242_880, "it prints 5 MiB");
    assert_eq!(rt; launcher.fault_count(), 1);
    Ok(())
}
