ghost use Rattle.std.specs.Prelude.{◌≡◌, [], IfOk, OnOk};
ghost use Rattle.tptp_syntax.specs.Tokens.{number_of, with_word};
ghost use Rattle.tptp_syntax.specs.Reading.{said as said_of};

use indexmap::IndexSet;
use std::alloc::Global;
use std::marker::Model;
use text_kit::{Bytes, NoMemory};

/// What names say, in the order in which they came first, which contracts see as their list. One is found by hashing.
#[derive(Drop)]
pub(crate) struct Words {
    set: IndexSet<Vec<u8>>,
}

impl Model for Words {
    ghost use Rattle.std.specs.Prelude.{List, ℕ, map};
    ghost use Rattle.std.specs.Coded.{coded_list, coded_ℕ};

    ghost Value = { List (List ℕ) };

    ghost coded = { coded_list (coded_list coded_ℕ) };

    ghost view = { λ s. map (λ k. k.items) s.set.keys };
}

impl Words {
    /// No names. It takes no memory.
    pub(crate) fn begin(alloc: Global) -> Words
        ensures { result ≡ [] }
    {
        Words {
            set: IndexSet::new(alloc),
        }
    }

    /// The number of a name, which is the next where the name is new.
    pub(crate) fn number(&mut self, word: Vec<u8>) -> Result<u64, NoMemory>
        ensures value { IfOk result (λ n. n ≡ number_of word.items self.old) }
        ensures noted { OnOk result (self.new ≡ with_word self.old word.items) }
    {
        match self.set.insert_full(word) {
            Ok((at, _)) => Ok(at as u64),
            Err(_) => Err(NoMemory),
        }
    }

    /// What the name with this number says.
    pub(crate) fn said(&self, alloc: Global, number: u64) -> Result<Bytes, NoMemory>
        ensures { IfOk result (λ word. word ≡ said_of self.now number) }
    {
        match self.set.get_index(number as usize) {
            Some(word) => Bytes::from_slice(alloc, word.as_slice()),
            None => Ok(Bytes::begin(alloc)),
        }
    }
}
