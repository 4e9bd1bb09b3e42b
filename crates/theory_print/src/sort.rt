use theory_syntax::Op;

/// The sorts of the grammar of terms, from the inside out: each holds those before it.
#[derive(Clone, Copy, Debug, Drop)]
pub enum Sort {
    /// A name, `true`, `false`, or a term in brackets.
    Atom,
    /// A head with arguments.
    App,
    /// With `=`.
    Eq,
    /// With `~`.
    Neg,
    /// With this sign.
    Chain(Op),
    /// With a binder.
    Formula,
}
