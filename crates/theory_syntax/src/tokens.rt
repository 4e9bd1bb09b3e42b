/// A word of the text that names something: its first byte and its length.
#[derive(Clone, Copy, Debug, Drop, PartialEq, Eq)]
pub struct Word {
    pub start: u64,
    pub len: u64,
}

/// The signs that bind a variable.
#[derive(Clone, Copy, Debug, Drop, PartialEq, Eq)]
pub enum Quant {
    /// `!`
    All,
    /// `?`
    Ex,
    /// `\`
    Lambda,
    /// `@`
    Eps,
}

/// A token of a theory file. Those that begin a part of a term tell their first byte.
#[derive(Clone, Copy, Debug, Drop, PartialEq, Eq)]
pub enum Tok {
    Word(Word),
    /// `true` or `false`
    Truth(bool, u64),
    Quant(Quant, u64),
    /// `(`
    Open(u64),
    /// `~`
    Tilde(u64),
    /// `bool`
    Bool,
    Colon,
    Dot,
    Semi,
    /// `->`
    Arrow,
    /// `==>`
    Imp,
    /// `|`
    Bar,
    /// `&`
    Amp,
    /// `=`
    Equal,
    /// `)`
    Close,
    /// `type`
    Type,
    /// `const`
    Const,
    /// `fact`
    Fact,
    /// `goal`
    Goal,
    /// `assume`
    Assume,
}
