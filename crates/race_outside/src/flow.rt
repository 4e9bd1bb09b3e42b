ghost use Rattle.std.specs.Prelude.{◌≡◌, ◌++◌, ◌<◌, min, take, length};

use std::marker::Model;
use text_kit::Bytes;

/// Bytes in memory that are read from their beginning on.
#[derive(Debug, Drop)]
pub(crate) struct Poured {
    bytes: Bytes,
    at: usize,
}

impl Model for Poured {
    ghost use Rattle.std.specs.Prelude.{◌≤◌, drop, length};
    ghost use Rattle.race_outside.specs.Memory.{Flow};

    ghost Value = { Flow };

    ghost view = { λ p. record { whole = p.bytes; left = drop p.at p.bytes } };

    ghost invariant = { λ p. p.at ≤ length p.bytes };
}

impl Poured {
    /// Bytes of which nothing was read.
    pub(crate) fn begin(bytes: Bytes) -> Poured
        ensures { result ≡ record { whole = bytes; left = bytes } }
    {
        Poured { bytes, at: 0 }
    }

    /// Moves as many of the next bytes to the front of `into` as fit.
    pub(crate) fn pour(&mut self, into: &mut [u8]) -> usize
        ensures count { result ≡ min (length into.old) (length self.old.left) }
        ensures bytes { self.old.left ≡ take result into.new ++ self.new.left }
        ensures whole { self.new.whole ≡ self.old.whole }
    {
        let (_, rest) = self.bytes.as_slice().split_at(self.at);
        let many = rest.len().min(into.len());
        into[..many].copy_from_slice(&rest[..many]);
        self.at += many;
        many
    }
}
