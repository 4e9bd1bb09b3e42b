use super::*;
use std::alloc::Global;
use std::io;
use std::test::Fail;
use text_kit::{Bytes, NoMemory, Rows};

fn file(alloc: Global, name: &[u8], bytes: &[u8]) -> Result<Held, NoMemory> {
    Ok(Held {
        name: Bytes::from_slice(alloc, name)?,
        bytes: Bytes::from_slice(alloc, bytes)?,
    })
}

fn numbers(alloc: Global, from: &[u64]) -> Result<Rows<u64>, NoMemory> {
    match Vec::from_slice(alloc, from) {
        Ok(items) => Ok(Rows::from_vec(items)),
        Err(_) => Err(NoMemory),
    }
}

#[test]
fn shelves_give_the_first_file_of_a_name(rt: HostRuntime) -> Result<(), Fail> {
    let alloc = rt.alloc();
    let mut files = Rows::begin(alloc);
    files.push(file(alloc, b"a", b"one")?)?;
    files.push(file(alloc, b"a", b"two")?)?;
    let mut shelf = MemoryShelf::begin(files, numbers(alloc, &[1])?);
    let mut into = Bytes::begin(alloc);
    shelf.fetch("a", 1, &mut into)?;
    assert_eq!(rt; into.as_slice(), b"on".as_slice());
    assert_eq!(rt;
        shelf.fetch("a", 9, &mut into),
        Err(FetchFault::Failed),
        "the listed fetch"
    );
    assert_eq!(rt;
        shelf.fetch("b", 9, &mut into),
        Err(FetchFault::Failed),
        "a name that isn't held"
    );
    shelf.fetch("a", 9, &mut into)?;
    assert_eq!(rt; into.as_slice(), b"one".as_slice());
    Ok(())
}

#[test]
fn sinks_keep_what_they_take(rt: HostRuntime) -> Result<(), Fail> {
    let alloc = rt.alloc();
    let mut sink = MemorySink::begin(alloc, numbers(alloc, &[1])?);
    sink.put(b"one")?;
    assert_eq!(rt; sink.put(b"two"), Err(Failed));
    sink.put(b"three")?;
    assert_eq!(rt; sink.taken().as_slice(), b"onethree".as_slice());
    let mut stream = StreamSink::begin(io::writer(&rt));
    stream.put(b"")?;
    let mut missing = FileShelf::begin(&rt);
    let mut into = Bytes::begin(alloc);
    assert_eq!(rt;
        missing.fetch("no such file", 9, &mut into),
        Err(FetchFault::Failed)
    );
    Ok(())
}
