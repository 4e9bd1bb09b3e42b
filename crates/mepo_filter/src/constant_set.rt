ghost use Rattle.std.specs.Prelude.{◌≡◌, ◌<◌, ◌≤◌, ℕ, slice_index, OnOk};
ghost use Rattle.mepo_filter.specs.Constants.{no_constant, with_constant, with_all};

use crate::table::reach;
use std::alloc::Global;
use text_kit::NoMemory;

/// A set of constants by their numbers.
///
/// A constant is in it where its stamp is the set's, so the set is emptied in constant time.
#[derive(Drop)]
pub(crate) struct ConstantSet {
    pub stamps: Vec<u32>,
    pub stamp: u32,
    ghost begun: { 0 < stamp },
    ghost no_later: { (c : ℕ) → slice_index stamps.items c ≤ stamp },
}

impl ConstantSet {
    ghost use Rattle.mepo_filter.specs.inner.Tables.{is_in};

    /// The empty set. It takes no memory.
    pub fn begin(alloc: Global) -> ConstantSet
        ensures { is_in result ≡ no_constant }
    {
        ConstantSet {
            stamps: Vec::new(alloc),
            stamp: 1,
        }
    }

    /// Whether the constant is in it.
    pub fn has(&self, constant: u32) -> bool
        ensures { result ≡ is_in self.now constant }
    {
        match self.stamps.get(constant as usize) {
            Some(stamp) => *stamp == self.stamp,
            None => false,
        }
    }

    /// Puts a constant into it.
    pub fn insert(&mut self, constant: u32) -> Result<(), NoMemory>
        ensures { OnOk result (is_in self.new ≡ with_constant (is_in self.old) constant) }
    {
        reach(&mut self.stamps, constant)?;
        self.stamps[constant as usize] = self.stamp;
        Ok(())
    }

    /// Puts all of these into it.
    pub fn insert_all(&mut self, constants: &[u32]) -> Result<(), NoMemory>
        ensures { OnOk result (is_in self.new ≡ with_all (is_in self.old) constants.now) }
    {
        for constant in constants {
            self.insert(*constant)?;
        }
        Ok(())
    }

    /// Takes all constants out of it.
    pub fn clear(&mut self)
        ensures { is_in self.new ≡ no_constant }
    {
        if self.stamp == u32::MAX {
            self.stamps.clear();
            self.stamp = 1;
        } else {
            self.stamp += 1;
        }
    }
}
