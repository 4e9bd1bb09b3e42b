ghost use Rattle.std.specs.Prelude.{MatchResult};
ghost use Rattle.proof_terms.specs.Fronts.{GotNumber, FailsNumber};

use crate::word;
use proof_syntax::PartFault;
use proof_words::Number;

/// The number below 2^64 at the front of a text, and what stands behind it.
pub fn read_number(text: &[u8]) -> Result<(u64, &[u8]), PartFault>
    ensures { MatchResult result (λ r. GotNumber text.now r.0 r.1.now) (λ e. FailsNumber text.now e) }
{
    match word(text) {
        None => Err(PartFault::Stops(text.len())),
        Some((digits, rest)) => match proof_words::read_number(digits) {
            Number::Is(n) => Ok((n, rest)),
            Number::Begins(len) => Err(PartFault::Stops(text.len() - len)),
        },
    }
}
