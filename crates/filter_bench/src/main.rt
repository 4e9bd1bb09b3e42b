//! Chooses facts of a theory file by each of the first eight slices, once alone and once with scores in threads, and prints whether both choose the same.
#![tactic(auto)]

use mepo_filter::{select, select_par, slice_of};
use race_outside::{FileShelf, Shelf};
use std::alloc::Global;
use std::thread::Threads;
use std::{env, io};
use text_kit::{Bytes, NoMemory, Rows};
use theory_reader::{Theory, read};

/// The greatest number of bytes that is read.
const MOST: u64 = 16_777_216;

/// The greatest number of facts.
const FACTS: usize = 20_000;

/// How many facts the slice chooses, where both calls choose the same.
fn chosen(
    rt: &(impl Threads + Sync),
    alloc: Global,
    theory: &Theory,
    number: u32,
) -> Result<Option<usize>, NoMemory> {
    let mut visible = Rows::begin(alloc);
    for k in 0..theory.facts.len() {
        visible.push(k as u32)?;
    }
    if theory.goals.len() == 0 || number >= 64 || visible.len() > FACTS {
        return Ok(None);
    }
    let slice = slice_of(number);
    let one = select(alloc, theory, &visible, 0, &slice)?;
    let other = select_par(rt, alloc, theory, &visible, 0, &slice)?;
    Ok(if one.as_slice() == other.as_slice() {
        Some(one.len())
    } else {
        None
    })
}

fn main(rt: HostRuntime) -> io::Result<()> {
    let name = match env::args(&rt)?.nth(1) {
        Some(name) => name,
        None => return Ok(()),
    };
    let mut shelf = FileShelf::begin(&rt);
    let mut bytes = Bytes::begin(rt.alloc());
    if shelf.fetch(name.as_str(), MOST, &mut bytes).is_err() || bytes.len() > MOST as usize {
        println!(rt; "no file")?;
        return Ok(());
    }
    let Ok(theory) = read(rt.alloc(), bytes.as_slice()) else {
        println!(rt; "no theory")?;
        return Ok(());
    };
    for number in 0..8 {
        match chosen(&rt, rt.alloc(), &theory, number) {
            Ok(Some(count)) => println!(rt; "slice {number}: both choose the same {count}")?,
            _ => println!(rt; "slice {number}: not the same")?,
        }
    }
    Ok(())
}
