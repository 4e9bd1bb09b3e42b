ghost use Rattle.std.specs.Prelude.{◌≡◌, ◌≤◌, [], IfOk};
ghost use Rattle.theory_gen.specs.Generated.{generated};
ghost use Rattle.sledge_engine.specs.Texts.{Is};

use std::alloc::Global;
use text_kit::{Bytes, NoMemory};
use theory_gen::make;

/// Answers `gen`: puts the generated theory of so many facts.
pub(crate) fn answer_gen(alloc: Global, n: u32, text: &mut Bytes) -> Result<u8, NoMemory>
    requires some { 1 ≤ n }
    requires few { n ≤ 20000 }
    requires text { text.old ≡ [] }
    ensures { IfOk result (λ status. Is 0 (generated n) status text.new) }
{
    let made = make(alloc, n)?;
    text.append(made.as_slice())?;
    Ok(0)
}
