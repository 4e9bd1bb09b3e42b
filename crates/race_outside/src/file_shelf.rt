ghost use Rattle.std.specs.Prelude.{◌≡◌, ◌+◌, ◌<◌, ◌≤◌, ◌^◌, length, None, false};

use crate::{FetchFault, Shelf};
use std::fs;
use std::io::{ErrorKind, Read};
use std::rt::Files;
use text_kit::{Bytes, NoMemory};

/// The files of the machine, by their paths. It tells no content.
#[derive(Drop)]
pub struct FileShelf<'r, R: Files> {
    rt: &'r R,
    faults: u64,
}

/// Why reading a file ended early.
enum Ended {
    Failed,
    NoMemory,
}

impl<'r, R: Files> FileShelf<'r, R> {
    /// A shelf over the machine's files.
    pub fn begin(rt: &'r R) -> FileShelf<'r, R> {
        FileShelf { rt, faults: 0 }
    }
}

// Reads up to `most` bytes, or to the end where there are fewer.
fn read_first<F: Read>(file: &mut F, most: usize, into: &mut Bytes) -> Result<(), Ended>
    requires { length into.old ≤ most }
    ensures { length into.new ≤ most }
{
    let mut chunk = [0u8; 16384];
    'chunks: for _ in 0..u64::MAX {
        let room = (most - into.len()).min(16384);
        if room == 0 {
            return Ok(());
        }
        match file.read(&mut chunk[..room]) {
            Ok(0) => return Ok(()),
            Ok(n) => match into.append(&chunk[..n]) {
                Ok(()) => {}
                Err(NoMemory) => return Err(Ended::NoMemory),
            },
            Err(cause) => {
                if cause.kind() != ErrorKind::Interrupted {
                    return Err(Ended::Failed);
                }
            }
        }
    }
    Err(Ended::Failed)
}

fn read_path<R: Files>(rt: &R, name: &str, most: usize, into: &mut Bytes) -> Result<(), Ended>
    requires { length into.old ≤ most }
    ensures { length into.new ≤ most }
{
    match fs::open(rt, name) {
        Ok(mut file) => read_first(&mut file, most, into),
        Err(_) => Err(Ended::Failed),
    }
}

impl<R: Files> Shelf for FileShelf<'_, R> {
    ghost use Rattle.std.proofs.Common.{rules};

    ghost held = { λ s. None };

    ghost sure = { λ s. false };

    ghost faults = { λ s. s.faults };

    ghost sure_tells = { Prim.search rules };

    fn fetch(&mut self, name: &str, limit: u64, into: &mut Bytes) -> Result<(), FetchFault> {
        into.clear();
        match read_path(self.rt, name, limit as usize + 1, into) {
            Ok(()) => Ok(()),
            Err(Ended::NoMemory) => Err(FetchFault::NoMemory),
            Err(Ended::Failed) => {
                self.faults = self.faults.saturating_add(1);
                Err(FetchFault::Failed)
            }
        }
    }
}
