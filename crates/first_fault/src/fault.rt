ghost use Rattle.std.specs.Prelude.{◌≡◌};
ghost use Rattle.first_fault.specs.Fails.{IsWithin, counted};

/// Why a text is refused, with the place of the token.
///
/// The parts of a reader count the tokens that are left from the place on, since they don't know what
/// stands before them; the whole reader counts the tokens before the place.
#[derive(Clone, Copy, Debug, Drop, PartialEq, Eq)]
pub enum Fault {
    /// No text goes on with this token, or none ends here.
    Syntax(usize),
    /// The token's level is above the limit.
    TooDeep(usize),
    /// Want of memory.
    NoMemory,
}

impl Fault {
    /// The same fault with the tokens before the place counted, where the tokens from the place on were.
    /// `tokens` is the number of all tokens.
    pub fn counted(self, tokens: usize) -> Fault
        requires { IsWithin tokens self }
        ensures { result ≡ counted tokens self }
    {
        match self {
            Fault::Syntax(left) => Fault::Syntax(tokens - left),
            Fault::TooDeep(left) => Fault::TooDeep(tokens - left),
            Fault::NoMemory => Fault::NoMemory,
        }
    }
}
