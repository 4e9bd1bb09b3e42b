use fo_infer::Line;
use text_kit::NoMemory;

/// Why a search does not go on.
#[derive(Drop)]
pub enum Stop {
    /// the empty clause was offered
    Found(Line),
    /// one clause too many would be kept
    Full,
    /// memory is wanting
    NoMemory,
}

impl From<NoMemory> for Stop {
    ghost use Rattle.std.specs.Prelude.{◌≡◌};
    ghost use Rattle.metis_core.specs.declared.stop.Stop.{Stop};

    ghost from_gives = { λ _ e. e ≡ Stop.NoMemory };

    fn from(_cause: NoMemory) -> Stop {
        Stop::NoMemory
    }
}
