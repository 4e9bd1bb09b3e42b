ghost use Rattle.std.specs.Prelude.{◌≡◌};
ghost use Rattle.race_core.specs.Standings.{is_listed};

use text_kit::Rows;

/// Whether a call is one of those that fail.
pub(crate) fn is_listed_call(call: u64, fails: &Rows<u64>) -> bool
    ensures { result ≡ is_listed call fails.now }
{
    fails.as_slice().contains(&call)
}
