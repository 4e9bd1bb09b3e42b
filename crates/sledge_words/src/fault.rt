use text_kit::NoMemory;

/// Why words are no line.
#[derive(Clone, Copy, Debug, Drop, PartialEq, Eq)]
pub enum WordsFault {
    /// The words are in no command's grammar.
    Usage,
    /// Memory ran out.
    NoMemory,
}

impl From<NoMemory> for WordsFault {
    ghost use Rattle.std.specs.Prelude.{◌≡◌};
    ghost use Rattle.sledge_words.specs.declared.fault.WordsFault.{WordsFault};

    ghost from_gives = { λ _ e. e ≡ WordsFault.NoMemory };

    fn from(_cause: NoMemory) -> WordsFault {
        WordsFault::NoMemory
    }
}
