use text_kit::NoMemory;

/// Why statements aren't made clauses.
#[derive(Clone, Copy, Debug, Drop, PartialEq, Eq)]
pub enum CnfFault {
    /// a statement has above 1,024 clauses
    TooLarge,
    /// memory ran out
    NoMemory,
}

impl From<NoMemory> for CnfFault {
    ghost use Rattle.std.specs.Prelude.{◌≡◌};
    ghost use Rattle.fol_cnf.specs.declared.fault.CnfFault.{CnfFault};

    ghost from_gives = { λ _ e. e ≡ CnfFault.NoMemory };

    fn from(_cause: NoMemory) -> CnfFault {
        CnfFault::NoMemory
    }
}
