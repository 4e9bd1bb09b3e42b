ghost use Rattle.std.specs.Prelude.{◌≡◌, ◌++◌, decimal, OnOk};
ghost use Rattle.tptp_print.specs.Pages.{blank, word, type_number};

use crate::types::TypeNumbers;
use hol_terms::Ty;
use std::alloc::Global;
use text_kit::{Bytes, NoMemory, put_decimal};

/// A text that is being written: its bytes so far, and the types that have numbers so far.
#[derive(Drop)]
pub struct Page {
    pub bytes: Bytes,
    pub types: TypeNumbers,
}

impl Page {
    /// The empty page. It takes no memory.
    pub fn begin(alloc: Global) -> Page
        ensures { result ≡ blank }
    {
        Page {
            bytes: Bytes::begin(alloc),
            types: TypeNumbers::begin(alloc),
        }
    }

    pub fn put(&mut self, piece: &[u8]) -> Result<(), NoMemory>
        ensures { OnOk result (self.new ≡ word piece.now self.old) }
    {
        self.bytes.append(piece)
    }

    pub fn put_number(&mut self, n: u64) -> Result<(), NoMemory>
        ensures { OnOk result (self.new ≡ word (decimal n) self.old) }
    {
        put_decimal(&mut self.bytes, n)
    }

    /// Writes the number of a type, which gets the next one where it has none.
    pub fn put_type(&mut self, a: &Ty) -> Result<(), NoMemory>
        ensures { OnOk result (self.new ≡ type_number a.now self.old) }
    {
        let number = self.types.number(a)?;
        put_decimal(&mut self.bytes, number)
    }
}
