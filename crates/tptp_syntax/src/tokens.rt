/// The signs that bind variables.
#[derive(Clone, Copy, Debug, Drop, PartialEq, Eq)]
pub enum Quant {
    /// `!`
    Each,
    /// `?`
    One,
}

/// The signs that join any number of formulas.
#[derive(Clone, Copy, Debug, Drop, PartialEq, Eq)]
pub enum Chain {
    /// `&`
    And,
    /// `|`
    Or,
}

/// The signs that join two formulas and no more.
#[derive(Clone, Copy, Debug, Drop, PartialEq, Eq)]
pub enum Pair {
    /// `=>`
    Imp,
    /// `<=`
    Rev,
    /// `<=>`
    Iff,
    /// `<~>`
    Xor,
    /// `~|`
    Nor,
    /// `~&`
    Nand,
}

/// A token of a problem's text. Names are numbers: the places of what they say among all that names of the text say.
#[derive(Clone, Copy, Debug, Drop, PartialEq, Eq)]
pub enum Tok {
    /// a lower-case word, or a name in single quotes where the first part is `true`
    Name(bool, u64),
    /// an upper-case word
    Upper(u64),
    /// `$true` or `$false`
    Truth(bool),
    Quant(Quant),
    Chain(Chain),
    Pair(Pair),
    /// `~`
    Tilde,
    /// `=`, or `!=` where the part is `false`
    Equal(bool),
    /// `(`, or `[` where the part is `true`
    Open(bool),
    /// `)`, or `]` where the part is `true`
    Close(bool),
    Comma,
    Dot,
    Colon,
    /// a byte that begins no token
    Bad,
}
