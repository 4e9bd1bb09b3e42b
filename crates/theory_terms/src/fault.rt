use text_kit::NoMemory;

/// The kinds of faults of a theory file.
#[derive(Clone, Copy, Debug, Drop, PartialEq, Eq)]
pub enum TheoryKind {
    /// A byte that begins no token.
    Token,
    /// A token at which no theory goes on, or the end where none ends.
    Syntax,
    /// A token whose level is above the limit, or a term whose tree is deeper than 1,024.
    TooDeep,
    /// A fact or an assumption beyond the number that is allowed.
    TooMany,
    /// A name that is declared already.
    Repeated,
    /// A name that isn't declared.
    Unknown,
    /// A part of a term whose type doesn't fit.
    IllTyped,
    /// A fact, a goal or an assumption whose type isn't bool.
    NotBool,
}

/// Why a text is no theory.
#[derive(Clone, Copy, Debug, Drop, PartialEq, Eq)]
pub enum TheoryFault {
    /// The first fault: the byte where it stands, and its kind.
    At { at: u64, kind: TheoryKind },
    /// Memory ran out.
    NoMemory,
}

impl From<NoMemory> for TheoryFault {
    ghost use Rattle.std.specs.Prelude.{◌≡◌};
    ghost use Rattle.theory_terms.specs.declared.fault.TheoryFault.{TheoryFault};

    ghost from_gives = { λ _ e. e ≡ TheoryFault.NoMemory };

    fn from(_cause: NoMemory) -> TheoryFault {
        TheoryFault::NoMemory
    }
}
