ghost use Rattle.std.specs.Prelude.{◌≡◌};
ghost use Rattle.race_run.specs.inner.Seats.{handed};

use crate::back::Back;
use race_board::Name;
use race_outside::Pipe;
use std::sync::ledger::Share;

/// What a worker holds: a part of the ledger, and the pipe that it hands back.
#[derive(Drop)]
pub(crate) struct Seat<P: Pipe, N: Name> {
    pub share: Share<N>,
    pub back: Option<Back<P, N>>,
    ghost one: { share.parts ≡ 1 },
    ghost counted: { share.amount ≡ handed back },
}
