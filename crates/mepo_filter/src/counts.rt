ghost use Rattle.std.specs.Prelude.{◌≡◌, ◌+◌, ◌<◌, ◌^◌, OnOk};

use crate::table::reach;
use std::alloc::Global;
use text_kit::NoMemory;

/// How often each constant was met.
#[derive(Drop)]
pub(crate) struct Counts {
    pub counts: Vec<u32>,
}

impl Counts {
    ghost use Rattle.mepo_filter.specs.inner.Tables.{count_in, not_met, met_again};

    /// No constant was met. It takes no memory.
    pub fn begin(alloc: Global) -> Counts
        ensures { count_in result ≡ not_met }
    {
        Counts {
            counts: Vec::new(alloc),
        }
    }

    /// Counts a constant once more.
    pub fn count(&mut self, constant: u32) -> Result<(), NoMemory>
        requires { count_in self.old constant + 1 < 2 ^ 32 }
        ensures { OnOk result (count_in self.new ≡ met_again (count_in self.old) constant) }
    {
        reach(&mut self.counts, constant)?;
        self.counts[constant as usize] += 1;
        Ok(())
    }
}
