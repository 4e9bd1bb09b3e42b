use text_kit::NoMemory;

/// Why a formula isn't made clauses.
#[derive(Clone, Copy, Debug, Drop, PartialEq, Eq)]
pub enum ClauseFault {
    /// it doesn't fit
    TooLarge,
    NoMemory,
}

impl From<NoMemory> for ClauseFault {
    ghost use Rattle.std.specs.Prelude.{◌≡◌};
    ghost use Rattle.formula_clauses.specs.declared.fault.ClauseFault.{ClauseFault};

    ghost from_gives = { λ _ e. e ≡ ClauseFault.NoMemory };

    fn from(_cause: NoMemory) -> ClauseFault {
        ClauseFault::NoMemory
    }
}
