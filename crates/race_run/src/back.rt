ghost use Rattle.std.specs.Prelude.{◌≡◌};
ghost use Rattle.race_board.specs.Ends.{IsOfRace};

use race_board::{Drained, Name};
use race_outside::Pipe;
use std::marker::PhantomData;

/// A drained pipe of the race that a worker hands back.
#[derive(Drop)]
pub(crate) struct Back<P: Pipe, N: Name> {
    pub drained: Drained<P>,
    pub race: PhantomData<N>,
    ghost told: { P.told drained.pipe ≡ N.terms.children (P.number drained.pipe) },
    ghost range: { IsOfRace N.terms (P.number drained.pipe) },
}

impl<P: Pipe, N: Name> Back<P, N> {
    /// The id of the pipe's child.
    pub(crate) fn id(&self) -> u64
        ensures { result ≡ P.number self.now.drained.pipe }
    {
        self.drained.pipe.id()
    }
}
