ghost use Rattle.std.specs.Prelude.{MatchResult};
ghost use Rattle.proof_terms.specs.Fronts.{GotName, FailsName};

use crate::word;
use proof_syntax::PartFault;
use theory_terms::Names;

/// The number of a declared name at the front of a text, and what stands behind it.
pub fn read_name<'a>(names: &Names, text: &'a [u8]) -> Result<(u32, &'a [u8]), PartFault>
    ensures { MatchResult result (λ r. GotName names.now text.now r.0 r.1.now) (λ e. FailsName names.now text.now e) }
{
    match word(text) {
        None => Err(PartFault::Stops(text.len())),
        Some((name, rest)) => match names.place(name) {
            None => Err(PartFault::GoesBeyond(text.len())),
            Some(number) => Ok((number, rest)),
        },
    }
}
