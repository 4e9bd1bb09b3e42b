ghost use Rattle.std.specs.Prelude.{◌≡◌, [], ◌∷◌, ◌++◌, ◌<◌, length, slice_get, slice_set, IfOk, MatchOption, OnOk, OnErr, OnSome};
ghost use Rattle.std.specs.Option.{option_copied};

use crate::NoMemory;
use std::alloc::{AllocError, Global};
use std::marker::Model;

/// A growing list of bytes, which contracts see as the list of their numbers.
#[derive(Debug, Drop)]
pub struct Bytes {
    items: Vec<u8>,
}

impl Model for Bytes {
    ghost use Rattle.std.specs.Prelude.{List, ℕ};
    ghost use Rattle.std.specs.Coded.{coded_list, coded_ℕ};

    ghost Value = { List ℕ };

    ghost coded = { coded_list coded_ℕ };

    ghost view = { λ it. it.items.items };
}

impl Bytes {
    /// No bytes. It takes no memory.
    pub fn begin(alloc: Global) -> Bytes
        ensures { result ≡ [] }
    {
        Bytes {
            items: Vec::new(alloc),
        }
    }

    /// Appends a byte. A refused push leaves the bytes as they were.
    pub fn push(&mut self, item: u8) -> Result<(), NoMemory>
        ensures ok { OnOk result (self.new ≡ self.old ++ item ∷ []) }
        ensures err { OnErr result (self.new ≡ self.old) }
    {
        match self.items.push(item) {
            Ok(()) => Ok(()),
            Err(_) => Err(NoMemory),
        }
    }

    /// Appends a piece. A refused one leaves the bytes as they were.
    pub fn append(&mut self, piece: &[u8]) -> Result<(), NoMemory>
        ensures ok { OnOk result (self.new ≡ self.old ++ piece.now) }
        ensures err { OnErr result (self.new ≡ self.old) }
    {
        match self.items.extend_from_slice(piece) {
            Ok(()) => Ok(()),
            Err(_) => Err(NoMemory),
        }
    }

    /// Takes the last byte.
    pub fn pop(&mut self) -> Option<u8>
        ensures { MatchOption result ((self.old ≡ []) × (self.new ≡ [])) (λ last. self.old ≡ self.new ++ last ∷ []) }
    {
        self.items.pop()
    }

    /// Takes all bytes out and keeps the room for them.
    pub fn clear(&mut self)
        ensures { self.new ≡ [] }
    {
        self.items.clear();
    }

    /// The number of bytes.
    pub fn len(&self) -> usize
        ensures { result ≡ length self.now }
    {
        self.items.len()
    }

    /// Lends the byte at a place, where there is one.
    pub fn get(&self, at: usize) -> Option<&u8>
        ensures value { option_copied result ≡ slice_get self.now at }
        ensures within { OnSome result (at < length self.now) }
    {
        self.items.get(at)
    }

    /// Puts a byte in the place of another.
    pub fn set(&mut self, at: usize, item: u8)
        requires { at < length self.old }
        ensures { self.new ≡ slice_set self.old at item }
    {
        self.items[at] = item;
    }

    /// Lends all bytes.
    pub fn as_slice(&self) -> &[u8]
        ensures { result.now ≡ self.now }
    {
        self.items.as_slice()
    }

    /// The allocator that the bytes were begun with.
    pub fn allocator(&self) -> Global {
        *self.items.allocator()
    }

    /// A second list of the same bytes.
    pub fn copy(&self, alloc: Global) -> Result<Bytes, NoMemory>
        ensures { IfOk result (λ it. it ≡ self.now) }
    {
        Bytes::from_slice(alloc, self.items.as_slice())
    }

    /// The bytes of a slice.
    pub fn from_slice(alloc: Global, from: &[u8]) -> Result<Bytes, NoMemory>
        ensures { IfOk result (λ it. it ≡ from.now) }
    {
        match Vec::from_slice(alloc, from) {
            Ok(items) => Ok(Bytes { items }),
            Err(_) => Err(NoMemory),
        }
    }
}

impl Clone for Bytes {
    ghost is_clone = { λ x y. y ≡ x };

    fn clone(&self) -> Result<Bytes, AllocError> {
        match self.copy(self.allocator()) {
            Ok(bytes) => Ok(bytes),
            Err(NoMemory) => Err(AllocError),
        }
    }
}
