//! Reads a prover's output from a file and prints what it used: the number of names, or the fault.
#![tactic(auto)]

use race_outside::{FileShelf, Shelf};
use std::alloc::Global;
use std::{env, io};
use text_kit::Bytes;
use tstp_read::{UsedFault, used};

/// The greatest number of bytes that is read.
const MOST: u64 = 4_194_304;

/// What an output used, in words.
enum Told {
    Names(usize),
    Fault(UsedFault),
}

fn answer(alloc: Global, text: &[u8]) -> Told {
    match used(alloc, text) {
        Ok(names) => Told::Names(names.len()),
        Err(fault) => Told::Fault(fault),
    }
}

fn main(rt: HostRuntime) -> io::Result<()> {
    let name = match env::args(&rt)?.nth(1) {
        Some(name) => name,
        None => return Ok(()),
    };
    let mut shelf = FileShelf::begin(&rt);
    let mut bytes = Bytes::begin(rt.alloc());
    if shelf.fetch(name.as_str(), MOST, &mut bytes).is_err() {
        println!(rt; "no file")?;
        return Ok(());
    }
    match answer(rt.alloc(), bytes.as_slice()) {
        Told::Names(count) => println!(rt; "{count} names"),
        Told::Fault(fault) => println!(rt; "{fault:?}"),
    }
}
